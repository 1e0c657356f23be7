// The host of a script: the store of each end, and the names of the items that were laid in.
use crate::command::Kind;
use crate::fault::{Fault, Stop};
use crate::stores::AnyStore;
use console::shown::{HexDigits, Shown};
use std::alloc::Global;
use std::io;
use terms::name::Name;
use terms::refusal::Refusal;
use terms::side::Side;

// An end that is set up.
#[derive(Drop)]
pub struct End {
    store: AnyStore,
    // in filing order; kept beside the store by a rule of the project: the calls of a store tell no name
    names: Vec<Name>,
}

#[derive(Drop)]
pub struct Host {
    shield: Option<End>,
    cabin: Option<End>,
}

impl Host {
    pub fn new() -> Host {
        Host {
            shield: None,
            cabin: None,
        }
    }

    fn place(&mut self, side: Side) -> &mut Option<End> {
        match side {
            Side::Shield => &mut self.shield,
            Side::Cabin => &mut self.cabin,
        }
    }

    pub fn end(&mut self, side: Side) -> Result<&mut End, Fault> {
        self.place(side).as_mut().ok_or(Fault::NoStore)
    }

    // Sets up an end's store, once.
    pub fn set_up(
        &mut self,
        heap: Global,
        side: Side,
        kind: Kind,
        size: usize,
    ) -> Result<(), Stop> {
        let place = self.place(side);
        if place.is_some() {
            return Err(Stop::Fault(Fault::SetUpAlready));
        }
        *place = Some(End {
            store: AnyStore::new(heap, kind, size)?,
            names: Vec::new(heap),
        });
        Ok(())
    }
}

impl End {
    pub fn lay(&mut self, name: &[u8], bytes: &[u8]) -> Result<(), Stop> {
        self.store.lay(name, bytes)?;
        if let Ok(name) = Name::new(name) {
            self.names.push(name).map_err(io::Error::from)?;
        }
        Ok(())
    }

    // Prints name, length and FNV-1a of each item, in filing order; answers how many there are.
    pub fn items(&self, rt: &HostRuntime) -> io::Result<usize> {
        for (item, name) in self.names.iter().enumerate() {
            if let Ok(size) = self.store.size(item) {
                let hash = self.store.hash(item, size);
                println!(rt; "  {} {size} {hash:08x}", Shown(name.text()))?;
            }
        }
        Ok(self.names.len())
    }

    // Prints the bytes of an item, 32 to a line; answers how many there are.
    pub fn show(&self, rt: &HostRuntime, name: &[u8]) -> Result<usize, Stop> {
        let item = self.store.find(name).ok_or(Refusal::NoSuchItem)?;
        let size = self.store.size(item)?;
        let print = |printed: io::Result<()>, part: &[u8]| {
            printed?;
            println!(rt; "  {}", HexDigits(part))
        };
        self.store.fold::<32, _, _>(item, size, Ok(()), print)?;
        Ok(size)
    }
}
