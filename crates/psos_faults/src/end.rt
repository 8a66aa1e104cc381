// How a run ended.
use psos_calls::Entry;
use psos_io::MemSink;
use psos_journal::Entries;
use psos_print::put_transcript;
use psos_script::read_script;
use psos_store::MemStore;
use psos_text::put_number;
use psos_top::Outcome;
use std::alloc::{AllocError, Global};

/// What a run over a store in memory ended with.
#[derive(Clone, Copy)]
pub(crate) struct End {
    status: u8,
    entries: u32,
    levels: bool,
    store_faults: u64,
    // Whether what was written begins with the transcript of the entries that are given.
    told: bool,
}

// Whether a text begins with the transcript of entries of a script, which is written here once more.
fn begins(
    alloc: Global,
    script: &[u8],
    entries: &Entries<Entry>,
    text: &[u8],
) -> Result<bool, AllocError> {
    let Ok(script) = read_script(alloc, script) else {
        return Ok(false);
    };
    let mut again = MemSink::new(4096, Vec::new(alloc));
    again.reserve(alloc, 4096)?;
    if put_transcript(alloc, &script, entries, &mut again).is_err() {
        return Ok(false);
    }
    Ok(text.starts_with(again.bytes()))
}

impl End {
    /// The end of a run of a script, which wrote this.
    pub(crate) fn of(
        alloc: Global,
        script: &[u8],
        outcome: &Outcome<MemStore>,
        wrote: &[u8],
    ) -> Result<End, AllocError> {
        Ok(End {
            status: outcome.status,
            entries: outcome.entries.len(),
            levels: outcome.levels.is_some(),
            store_faults: outcome.store_faults,
            told: begins(alloc, script, &outcome.entries, wrote)?,
        })
    }

    /// Appends it as a line, with what the run wrote behind it.
    pub(crate) fn put(
        &self,
        alloc: Global,
        out: &mut Vec<u8>,
        wrote: &[u8],
    ) -> Result<(), AllocError> {
        put(alloc, out, b": status ", u64::from(self.status))?;
        put(alloc, out, b", entries ", u64::from(self.entries))?;
        put(alloc, out, b", levels ", u64::from(self.levels))?;
        put(alloc, out, b", store faults ", self.store_faults)?;
        put(alloc, out, b", told ", u64::from(self.told))?;
        out.extend_from_slice(b"\n")?;
        out.extend_from_slice(wrote)?;
        out.extend_from_slice(b"\n")
    }
}

/// Appends a text and a number.
pub(crate) fn put(
    alloc: Global,
    out: &mut Vec<u8>,
    text: &[u8],
    number: u64,
) -> Result<(), AllocError> {
    out.extend_from_slice(text)?;
    put_number(alloc, out, number)
}
