// The lines of the output.
ghost use Rattle.std.specs.Prelude.{[], OnOk};
ghost use Rattle.book.specs.View.{view};
ghost use Rattle.script.specs.Outputs.{object_bytes};
ghost use Rattle.replays.specs.Output.{Appended, lines_from, place_bytes};

use book::Book;
use script::OutputLine;
use std::alloc::AllocError;
use terms::Store;

// The value of each object.
pub(crate) fn write_objects<S: Store>(out: &mut String, store: &S) -> Result<(), AllocError>
    ensures { OnOk result (Appended out.old out.new (lines_from object_bytes 0 (S.Store.values store.now))) }
{
    for object in 0..store.len() {
        let value = store.read(object).unwrap();
        let object = object as u16;
        OutputLine::Object { object, value }.append_to(out)?;
    }
    Ok(())
}

// How many executions each running job has.
pub(crate) fn write_jobs(out: &mut String, book: &Book) -> Result<(), AllocError>
    ensures { OnOk result (Appended out.old out.new (lines_from (place_bytes (view [] book.now).executions) 0 (view [] book.now).jobs)) }
{
    for place in 0..16u8 {
        if book.job(u64::from(place)).is_some() {
            let executions = book.execution_count(u64::from(place)) as u8;
            OutputLine::Job { place, executions }.append_to(out)?;
        }
    }
    Ok(())
}
