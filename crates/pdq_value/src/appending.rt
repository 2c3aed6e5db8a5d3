//! Bytes that are appended, where memory may be wanting.
ghost use Rattle.pdq_value.specs.Appending.{AppendsPart};
ghost use Rattle.std.specs.Prelude.{◌≡◌, ◌++◌, OnErr, OnOk};

use pdq_base::Memory;

/// Appends these bytes.
///
/// # Errors
/// `Memory` where it is wanting; then nothing is appended.
pub fn append(to: &mut Vec<u8>, bytes: &[u8]) -> Result<(), Memory>
    ensures text { OnOk result (to.new.items ≡ to.old.items ++ bytes.now) }
    ensures part { OnErr result (AppendsPart to.old.items to.new.items bytes.now) }
{
    if to.extend_from_slice(bytes).is_err() {
        return Err(Memory);
    }
    Ok(())
}
