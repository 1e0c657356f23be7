// The values of the three options, and the range that each may lie in.
ghost use Rattle.std.specs.Prelude.{◌≡◌, ◌&&◌, nat_le};
ghost use Rattle.option_pairs.specs.Values.{request_ranges, answer_ranges, up_to, just};

// One thing for each of the three options.
#[derive(Clone, Copy, PartialEq, Eq, Default, Debug)]
pub struct PerOption<T> {
    pub blksize: T,
    pub timeout: T,
    pub windowsize: T,
}

// The options that pairs give, each absent or a number.
pub type Options = PerOption<Option<u32>>;

// The numbers from low to high; none where low is above high.
#[derive(Clone, Copy, PartialEq, Eq, Debug)]
pub struct Range {
    pub low: u32,
    pub high: u32,
}

pub type Ranges = PerOption<Range>;

impl Range {
    // No number lies in it.
    const NOTHING: Range = Range { low: 1, high: 0 };

    // From low up to what was asked; nothing where nothing was.
    fn up_to(low: u32, asked: Option<u32>) -> Range
        ensures { result ≡ up_to low asked }
    {
        asked.map_or(Range::NOTHING, |high| Range { low, high })
    }

    // What was asked alone; nothing where nothing was.
    fn just(asked: Option<u32>) -> Range
        ensures { result ≡ just asked }
    {
        asked.map_or(Range::NOTHING, |n| Range { low: n, high: n })
    }

    // Whether the number lies in the range.
    pub fn contains(self, n: u32) -> bool
        ensures { result ≡ (nat_le self.low n && nat_le n self.high) }
    {
        self.low <= n && n <= self.high
    }
}

impl Ranges {
    // The valid values in a request.
    pub fn of_request() -> Ranges
        ensures { result ≡ request_ranges }
    {
        Ranges {
            blksize: Range {
                low: 8,
                high: 65_464,
            },
            timeout: Range { low: 1, high: 255 },
            windowsize: Range {
                low: 1,
                high: 65_535,
            },
        }
    }

    // The values of an OACK that fit what was asked.
    pub fn of_answer(asked: Options) -> Ranges
        ensures { result ≡ answer_ranges asked }
    {
        Ranges {
            blksize: Range::up_to(8, asked.blksize),
            timeout: Range::just(asked.timeout),
            windowsize: Range::up_to(1, asked.windowsize),
        }
    }
}
