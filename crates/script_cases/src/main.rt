// Says of each line of its input what it is as the first line of a script and as a later one.
#![tactic(auto)]

use fields::{Field, rows};
use script::{Fault, read_call, read_setup};
use std::alloc::{AllocError, Global};
use std::fmt::Debug;
use std::io;
use std::io::Read;

// The value that was read, or the number of the fault.
fn said<T: Debug + Drop>(heap: Global, read: Result<T, Fault>) -> Result<String, AllocError> {
    match read {
        Ok(value) => format!(in heap; "{value:?}"),
        Err(fault) => format!(in heap; "{}", u8::from(fault)),
    }
}

// Where the last field stands.
fn last_place(fields: &[Field]) -> usize {
    fields.last().map_or(0, |last| last.at)
}

fn main(rt: HostRuntime) -> io::Result<()> {
    let heap = rt.alloc();
    let mut input = Vec::new(heap);
    rt.stdin().read_to_end(&mut input)?;
    let lines = rows(heap, input.as_slice())?;
    for line in &lines {
        let fields = line.as_slice();
        let count = fields.len();
        let place = last_place(fields);
        let first = said(heap, read_setup(fields))?;
        let later = said(heap, read_call(fields))?;
        println!(rt; "{count} to {place}: {first} or {later}")?;
    }
    Ok(())
}

#[cfg(test)]
mod tests {
    use script::{OutputLine, ReadError, read_script};
    use std::alloc::{AllocError, Global};
    use std::fmt::Write;
    use std::test::Fail;

    // scripts: the number of each later line, 0 where it is read; or that of the script
    // Faults stand here by their numbers, since those come from outside.
    const SCRIPTS: [(&[u8], &str); 16] = [
        (b"", "refused 20"),
        (b"\n", "refused 20"),
        (b"\n\n", "refused 20"),
        (b"S,C,T,1,4,1", "read"),
        (b"S,C,T,1,4,1\n", "read"),
        (b"S,C,T,1,4,1\n\n", "read 20"),
        (b"S,C,T,1,4,1\n\n\n", "read 20 20"),
        (b"S,C,T,1,4,1\nC,0", "read 0"),
        (b"S,C,T,1,4,1\nC,0\n", "read 0"),
        (b"S,C,T,1,4,1\r\nC,0\r\n", "refused 22"),
        (b"\nS,C,T,1,4,1", "refused 20"),
        (b"S,C,T,1,4,65\nC,0", "refused 22"),
        (b"S,C,T,1,4\nC,0", "refused 21"),
        (b"C,0\nS,C,T,1,4,1", "refused 20"),
        (
            b"S,C,T,1,4,1\nS,C,T,1,4,1\nQ\nB,0,1\nL,0,0,x\nA,0",
            "read 20 20 21 22 0",
        ),
        (b"S,C,T,1,4,1\n\xff\xfe\nI,0,0", "read 20 0"),
    ];

    // The numbers of the later lines, or that of the script: a refusal is what is looked at, and want of memory fails the test.
    fn numbers(heap: Global, script: &[u8]) -> Result<String, AllocError> {
        match read_script(heap, script) {
            Err(ReadError::Memory(error)) => Err(error),
            Err(ReadError::Refused(fault)) => format!(in heap; "refused {}", u8::from(fault)),
            Ok(read) => {
                let mut text = String::from_str(heap, "read")?;
                for reading in read.readings.as_slice() {
                    let number = reading.err().map_or(0, u8::from);
                    write!(text, " {number}")?;
                }
                Ok(text)
            }
        }
    }

    // Each script is read as it should be.
    fn check_scripts(heap: Global, cases: &[(&[u8], &str)]) -> Result<(), Fail> {
        for (script, text) in cases {
            let read = numbers(heap, script)?;
            if read.as_str() != *text {
                return Err(Fail::new(format_args!("{read} in place of {text}")));
            }
        }
        Ok(())
    }

    #[test]
    fn scripts_are_read(rt: HostRuntime) -> Result<(), Fail> {
        check_scripts(rt.alloc(), &SCRIPTS)
    }

    // Line feeds up to the longest script, and one more.
    #[test]
    fn long_scripts_are_cut_at_once(rt: HostRuntime) -> Result<(), Fail> {
        let mut script = b"S,C,T,1,4,1".to_vec(rt.alloc())?;
        script.resize(32_768, b'\n')?;
        let read = read_script(rt.alloc(), script.as_slice())?;
        assert_eq!(rt; read.readings.len(), 32_756);
        script.push(b'\n')?;
        let read = numbers(rt.alloc(), script.as_slice())?;
        assert_eq!(rt; read.as_str(), "refused 19");
        Ok(())
    }

    #[test]
    fn output_lines_are_written(rt: HostRuntime) -> Result<(), Fail> {
        let heap = rt.alloc();
        let answer = OutputLine::Answer {
            number: 8,
            answer: 18,
        };
        assert_eq!(rt; answer.text(heap)?.as_str(), "8,18\n");
        let object = OutputLine::Object {
            object: 65_535,
            value: u64::MAX,
        };
        assert_eq!(rt;
            object.text(heap)?.as_str(),
            "O,65535,18446744073709551615\n"
        );
        let job = OutputLine::Job {
            place: 15,
            executions: 16,
        };
        assert_eq!(rt; job.text(heap)?.as_str(), "J,15,16\n");
        let mut all = answer.text(heap)?;
        job.append_to(&mut all)?;
        assert_eq!(rt; all.as_str(), "8,18\nJ,15,16\n");
        Ok(())
    }
}
