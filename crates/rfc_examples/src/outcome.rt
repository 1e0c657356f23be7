// What a step gives, in words, and beside what it should give.
use console::refused::Numbered;
use std::{fmt, io};
use terms::refusal::Refusal;

// What a step gives, or why it is refused.
#[derive(Clone, Copy, Debug)]
pub struct Outcome<T>(pub Result<T, Refusal>);

impl<T: fmt::Display> fmt::Display for Outcome<T> {
    fn fmt<W: fmt::Write>(&self, f: &mut fmt::Formatter<W>) -> fmt::Result {
        match &self.0 {
            Ok(value) => write!(f, "{value}"),
            Err(why) => write!(f, "refused {}", Numbered(*why)),
        }
    }
}

// Prints what came, and whether it is what it should be.
pub fn compare<T: fmt::Display + Drop>(
    rt: &HostRuntime,
    label: &str,
    came: T,
    expected: &str,
) -> io::Result<bool> {
    let came = format!(in rt.alloc(); "{came}")?;
    let is_right = came.as_str() == expected;
    print!(rt; "  {label}: {came}")?;
    if is_right {
        println!(rt; ": as it should be")?;
    } else {
        println!(rt; ": DIFFERS, should be {expected}")?;
    }
    Ok(is_right)
}
