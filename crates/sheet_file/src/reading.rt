// Read: a sheet from bytes.
ghost use Rattle.std.specs.Prelude.{◌≡◌, ◌≤◌, ◌↔◌, Ok, Err, length, IsOk, OnOk, IfErr, MatchResult};
ghost use Rattle.std.specs.Result.{result_unwrap_or};
ghost use Rattle.sheet.specs.History.{draft_ledger};
ghost use Rattle.sheet_file.specs.Format.{file, most_file};
ghost use Rattle.sheet_file.specs.Reading.{reading, read_answer};
ghost use Rattle.sheet_file.specs.Laws.{Packed, IsFile, FaultShown, ToldAsSix, PricesUppermost};

use crate::faults::FileRefusal;
use crate::reader::Reader;
use sheet::Draft;

// The sheet of a file, or the first fault met.
fn sheet_of(bytes: &[u8]) -> Result<Draft, FileRefusal>
    ensures { MatchResult result (λ draft. reading bytes.now ≡ Ok (draft_ledger draft)) (λ e. reading bytes.now ≡ Err e) }
{
    let mut reader = Reader::new(bytes);
    while reader.place < bytes.len() {
        reader.step()?;
    }
    reader.close()?;
    Ok(reader.draft)
}

// Replaces the draft by the sheet of a file, or refuses the file and leaves the draft as it was. Bytes of any length are judged.
pub fn read(draft: &mut Draft, bytes: &[u8]) -> Result<(), FileRefusal>
    ensures answer { result ≡ read_answer (reading bytes.now) }
    ensures after { draft_ledger draft.new ≡ result_unwrap_or (reading bytes.now) (draft_ledger draft.old) }
    ensures accepted { IsOk result ↔ IsFile bytes.now }
    ensures same_bytes { OnOk result (file (draft_ledger draft.new).contents ≡ bytes.now) }
    ensures packed { OnOk result (Packed (draft_ledger draft.new)) }
    ensures most { OnOk result (length bytes.now ≤ most_file) }
    ensures refused { IfErr result (λ e. FaultShown bytes.now e) }
    ensures causes { IfErr result (λ e. ToldAsSix e) }
    ensures uppermost { PricesUppermost }
{
    *draft = sheet_of(bytes)?;
    Ok(())
}
