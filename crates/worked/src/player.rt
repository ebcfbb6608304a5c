// Plays steps on a new book over a store of 20 objects, all at 0, under the charge rule.
use super::steps::Step;
use book::Book;
use house::ChargeRule;
use std::io;
use stores::TableStore;
use terms::{Call, Mode, Store};

#[derive(Drop)]
struct Player<'a> {
    rt: &'a HostRuntime,
    book: Book,
    store: TableStore,
}

impl Player<'_> {
    fn ask(&mut self, call: Call) -> io::Result<()> {
        let answer = self.book.call(&mut self.store, &ChargeRule, call);
        let number = answer.err().map_or(0, u8::from);
        println!(self.rt; "  {call:?}: {number}")
    }

    // A job locks an object to write, and images it.
    fn make(&mut self, place: u64, object: u64) -> io::Result<()> {
        self.ask(Call::Lock {
            place,
            object,
            mode: Mode::Write,
        })?;
        self.ask(Call::Image { place, object })
    }

    // Five jobs in turn make the object, and the last of them the next seven objects too.
    fn crowd(&mut self, place: u8, object: u8) -> io::Result<()> {
        let place = u64::from(place);
        let object = u64::from(object);
        for next in 0..5u64 {
            self.ask(Call::Begin {
                place: place + next,
                kind: 1,
                argument: 1,
            })?;
            self.make(place + next, object)?;
        }
        for next in 1..8u64 {
            self.make(place + 4, object + next)?;
        }
        Ok(())
    }

    fn take(&mut self, step: Step) -> io::Result<()> {
        match step {
            Step::Ask(call) => self.ask(call),
            Step::Count(place) => {
                let count = self.book.execution_count(place);
                println!(self.rt; "  job {place} has {count}")
            }
            Step::Show(object) => {
                let value = self.store.read(object).unwrap_or(0);
                println!(self.rt; "  object {object} is {value}")
            }
            Step::Crowd { place, object } => self.crowd(place, object),
        }
    }
}

pub(crate) fn play(
    rt: &HostRuntime,
    title: &str,
    robustness: u64,
    limit: u64,
    steps: &[Step],
) -> io::Result<()> {
    println!(rt; "{title}, robustness {robustness}, limit {limit}")?;
    let store = TableStore::zeroed(rt.alloc(), 20)?;
    let book = match Book::new(robustness, limit) {
        Ok(book) => book,
        Err(refusal) => {
            let number = u8::from(refusal);
            return println!(rt; "  no book: {number}");
        }
    };
    let mut player = Player { rt, book, store };
    for step in steps {
        player.take(*step)?;
    }
    Ok(())
}
