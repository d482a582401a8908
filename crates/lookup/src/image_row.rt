// The row of an image, handed back as a part of the store that it lies in.
ghost use Rattle.std.specs.Prelude.{◌≡◌, MatchResult};
ghost use Rattle.std.proofs.Math.Option.{none, some};
ghost use Rattle.art.specs.Stores.{lent};
ghost use Rattle.records.specs.Layouts.{record_named};
ghost use Rattle.lookup.specs.Reading.{read_refusal, read, read_numbers, part_read, IsPart};

use art::memory_rgba8_texture;
use art::memory_rgba8_texture::Stores;
use records::frame;
use records::frame::{Key, Record};
use records::layout::Layout;
use records::refusal::Refusal;

// row of an image: 2 15 13 5. The record that the key names, where nothing refuses the row.
fn row_record(l: Layout, stores: Stores<'_>, key: Key, row: u32) -> Result<Record, Refusal>
    ensures { MatchResult result (λ r. (read_refusal l (lent stores.entry) key row ≡ none) × (record_named l key ≡ r))
        (λ e. read_refusal l (lent stores.entry) key row ≡ some e) }
{
    let l = l.well_formed().ok_or(Refusal::NotWellFormed)?;
    let Some(r) = l.named(key) else {
        return Err(Refusal::NoSuchKey);
    };
    if r.source.h <= row {
        return Err(Refusal::BadRows);
    }
    if memory_rgba8_texture::runs_past(stores, frame::image_of(*r)) {
        return Err(Refusal::PastStore);
    }
    Ok(*r)
}

// row of an image: 2 15 13 5. Whether it is handed back, or why not.
pub fn row_refusal(l: Layout, stores: Stores<'_>, key: Key, row: u32) -> Result<(), Refusal>
    ensures value { result ≡ read l (lent stores.entry) key row }
    ensures result_value { read_numbers result ≡ read_numbers (read l (lent stores.entry) key row) }
{
    row_record(l, stores, key, row)?;
    Ok(())
}

// row of an image: 2 15 13 5. A refused row is an empty part of the symbol store.
pub fn row_of_image<'a>(l: Layout, stores: Stores<'a>, key: Key, row: u32) -> &'a [u8]
    ensures { IsPart stores.entry (part_read l (lent stores.entry) key row) result }
{
    match row_record(l, stores, key, row) {
        Err(_) => &stores.symbols[..0],
        Ok(r) => {
            let w = r.source.w as usize;
            let a = r.offset as usize + 4 * (row as usize * w);
            &stores.of(r.store)[a..a + 4 * w]
        }
    }
}
