// A file's size and version, which come before anything in it.
ghost use Rattle.std.specs.Prelude.{◌≡◌, get_or};
ghost use Rattle.records.specs.Refusals.{fault_in};
ghost use Rattle.sections.specs.Sections.{too_long, wrong_version};

use records::{Fault, Refusal};

// The version byte; 0, which no version is, where a file has none.
pub fn version_of(file: &[u8]) -> u8
    ensures { result ≡ get_or file.now 0 0 }
{
    file.first().copied().unwrap_or(0)
}

// Judges a file's size: over it, the whole file is at fault.
pub fn check_size(file: &[u8], most: usize) -> Result<(), Fault>
    ensures { fault_in result ≡ too_long most file.now }
{
    if most < file.len() {
        return Err(Fault {
            refusal: Refusal::Long,
            start: 0,
            size: file.len(),
        });
    }
    Ok(())
}

// Judges a file's version, of which 1 to the latest are known: at fault is the first byte, which an empty file lacks.
pub fn check_version(file: &[u8], latest: u8) -> Result<(), Fault>
    ensures { fault_in result ≡ wrong_version latest file.now }
{
    let version = version_of(file);
    if (version < 1) | (latest < version) {
        return Err(Fault {
            refusal: Refusal::Version,
            start: 0,
            size: usize::min(1, file.len()),
        });
    }
    Ok(())
}
