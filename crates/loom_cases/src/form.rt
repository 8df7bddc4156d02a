use anyhow::{Context, Result, bail};
use loom_base::List;
use std::alloc::Global;

/// Bytes that a sink has room for where a case doesn't say it.
const ROOM: u64 = 67_108_864;

/// What the sink of a case is like.
#[derive(Drop)]
pub struct SinkForm {
    /// Bytes that it has room for.
    pub room: u64,
    /// The most bytes that it takes of one piece, where there is such a bound.
    pub per_call: Option<u64>,
    /// The numbers of the writes that fail, from 1.
    pub failing: List<u64>,
}

/// What a case says of its run besides the words.
#[derive(Drop)]
pub struct Form {
    /// The number of the status that is wanted.
    pub status: u8,
    /// How many blanks the document is, where the case doesn't write it down.
    pub blanks: Option<u64>,
    /// The numbers of the reads that fail, from 1.
    pub failing_reads: List<u64>,
    pub sink: SinkForm,
    /// The limit of the two design rules on long wires that are handed in, where there are any.
    pub two_long_wires: Option<u64>,
}

impl Form {
    /// A source and a sink of which no call fails, over the case's document.
    fn steady(alloc: Global) -> Form {
        Form {
            status: 0,
            blanks: None,
            failing_reads: List::new(alloc),
            sink: SinkForm {
                room: ROOM,
                per_call: None,
                failing: List::new(alloc),
            },
            two_long_wires: None,
        }
    }

    /// Takes in one line: what is said, a space and a number.
    fn take(&mut self, line: &str) -> Result<()> {
        let (what, number) = line.rsplit_once(' ').context("no number")?;
        let number = number.parse::<u64>().context("no number")?;
        match what {
            "status" => self.status = u8::try_from(number).context("no status")?,
            "blanks" => self.blanks = Some(number),
            "room" => self.sink.room = number,
            "source fails" => self.failing_reads.push(number)?,
            "sink fails" => self.sink.failing.push(number)?,
            "sink takes" => self.sink.per_call = Some(number),
            "two long wires" => self.two_long_wires = Some(number),
            _ => bail!("nothing that a case says"),
        }
        Ok(())
    }

    /// The form that the lines of a text give, but for those of words: `status N`, `blanks N`, `room N`,
    /// `source fails N`, `sink fails N`, `sink takes N` and `two long wires N`.
    pub fn of(alloc: Global, said: &str) -> Result<Form> {
        let mut form = Form::steady(alloc);
        for line in said.lines() {
            if !line.starts_with("word ") {
                form.take(line).context(format_args!("{line:?}"))?;
            }
        }
        Ok(form)
    }
}
