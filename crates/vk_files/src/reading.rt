ghost use Rattle.std.specs.Prelude.{◌≡◌, ◌≢◌, ◌<◌, ◌≤◌, ◌+◌, ℕ, List, IsTrue, IfOk, IfSome, length, vec_len};
ghost use Rattle.vk_files.specs.Causes.{Rose};
ghost use Rattle.vk_files.specs.Files.{ReadsFile, ReadsPiece, FitsOpening};
ghost use Rattle.vk_files.specs.declared.reading.FileFault.TheVariants.{Memory};

use crate::files::{Files, Opened, ReadFailed};
use std::alloc::{AllocError, Global};
use thiserror::Error;

/// The most bytes of one read.
const PIECE: usize = 64 * 1024;

/// Why a file was not read.
#[derive(Clone, Copy, Debug, PartialEq, Eq, Error)]
pub enum FileFault {
    #[error("there is no such file")]
    Missing,
    #[error("the file could not be read")]
    Failed,
    #[error("the file is too long")]
    TooLong,
    #[error("out of memory")]
    Memory,
}

/// The whole file, where it has at most `max` bytes. At most `max` + 1 bytes are read, in pieces of at most
/// 64 KiB. What the file holds need not be text.
pub fn read_file<F: Files>(
    alloc: Global,
    files: &mut F,
    name: &str,
    max: usize,
) -> Result<Vec<u8>, FileFault>
    ensures told { IfSome (F.held files.old name.now) (λ file. ReadsFile file max result) }
    ensures opened { FitsOpening (F.found files.new) result }
    ensures within { IfOk result (λ bytes. length bytes.items ≤ max) }
    ensures failed { result ≡ Err FileFault.Failed → Rose (F.faults files.old) (F.faults files.new) }
    ensures later { F.faults files.old ≤ F.faults files.new }
    ensures keeps { (n : List ℕ) → F.held files.new n ≡ F.held files.old n }
{
    match files.open_file(name) {
        Ok(Opened::Found) => read_rest(alloc, files, max),
        Ok(Opened::Missing) => Err(FileFault::Missing),
        Err(ReadFailed) => Err(FileFault::Failed),
    }
}

/// All that is unread of the file that was found last.
fn read_rest<F: Files>(alloc: Global, files: &mut F, max: usize) -> Result<Vec<u8>, FileFault>
    requires { IsTrue (F.found files.old) }
    ensures told { IfSome (F.left files.old) (λ rest. ReadsFile (Some rest) max result) }
    ensures found { IsTrue (F.found files.new) }
    ensures not_missing { result ≢ Err FileFault.Missing }
    ensures within { IfOk result (λ bytes. length bytes.items ≤ max) }
    ensures failed { result ≡ Err FileFault.Failed → Rose (F.faults files.old) (F.faults files.new) }
    ensures later { F.faults files.old ≤ F.faults files.new }
    ensures keeps { (n : List ℕ) → F.held files.new n ≡ F.held files.old n }
{
    let mut piece = new_piece(alloc)?;
    let mut bytes = Vec::new(alloc);
    loop {
        match read_piece(files, &mut piece, &mut bytes, max) {
            Ok(0) => return Ok(bytes),
            Ok(_) => {}
            Err(fault) => return Err(fault),
        }
    }
}

/// The buffer of the reads.
fn new_piece(alloc: Global) -> Result<Vec<u8>, AllocError>
    ensures { IfOk result (λ piece. 0 < vec_len piece) }
{
    vec![in alloc; 0; PIECE]
}

/// Reads the next piece behind `bytes`, and answers its length: 0 at the end of the file.
fn read_piece<F: Files>(
    files: &mut F,
    piece: &mut [u8],
    bytes: &mut Vec<u8>,
    max: usize,
) -> Result<usize, FileFault>
    requires found { IsTrue (F.found files.old) }
    requires room { 0 < length piece.old }
    requires short { length bytes.old.items ≤ max }
    ensures told { IfSome (F.left files.old) (λ rest. ReadsPiece rest bytes.old.items bytes.new.items (F.left files.new) max result) }
    ensures found { IsTrue (F.found files.new) }
    ensures not_missing { result ≢ Err FileFault.Missing }
    ensures grows { IfOk result (λ n. (length bytes.new.items ≡ length bytes.old.items + n) × (length bytes.new.items ≤ max)) }
    ensures failed { result ≡ Err FileFault.Failed → Rose (F.faults files.old) (F.faults files.new) }
    ensures later { F.faults files.old ≤ F.faults files.new }
    ensures keeps { (n : List ℕ) → F.held files.new n ≡ F.held files.old n }
{
    let room = max - bytes.len();
    let wanted = piece.len().min(room.saturating_add(1));
    let count = match files.read(&mut piece[..wanted]) {
        Ok(count) => count,
        Err(ReadFailed) => return Err(FileFault::Failed),
    };
    if count > room {
        return Err(FileFault::TooLong);
    }
    bytes.extend_from_slice(&piece[..count])?;
    Ok(count)
}

impl From<AllocError> for FileFault {
    ghost from_gives = { λ _ fault. fault ≡ Memory };

    fn from(_error: AllocError) -> FileFault {
        FileFault::Memory
    }
}
