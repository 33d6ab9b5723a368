//! Reads all octets of a disk, in large pieces.
ghost use Rattle.std.specs.Prelude.{◌≡◌, ◌+◌, ◌<◌, ◌≤◌, ℕ, List, [], length, take, true, false, Some, IfOk, OnOk, IsErrOf};
ghost use Rattle.cmp_ports.specs.Disk.{Among, LeavesOnly};
ghost use Rattle.cmp_ports.specs.Faults.{Rose};

use cmp_ports::Disk;
use std::alloc::{AllocError, Global};

/// Why the octets aren't read.
#[derive(Clone, Copy)]
pub(crate) enum ImageFault {
    /// The disk failed.
    Failed,
    /// Memory ran out.
    NoMemory,
}

// How many octets are read at once.
const PIECE: usize = 65_536;

// So many octets.
fn zeros(alloc: Global, count: usize) -> Result<Vec<u8>, AllocError>
    ensures { IfOk result (λ v. length v.items ≡ count) }
{
    vec![in alloc; 0u8; count]
}

// Reads a piece behind what there is of the image, and tells whether there was any.
fn read_piece<D: Disk>(
    disk: &mut D,
    image: &mut Vec<u8>,
    piece: &mut [u8],
) -> Result<bool, ImageFault>
    requires room { 0 < length piece.old }
    requires so_far { (f : List ℕ) → D.content disk.old ≡ Some f → image.old.items ≡ take (length image.old.items) f }
    ensures so_far { (f : List ℕ) → D.content disk.old ≡ Some f → image.new.items ≡ take (length image.new.items) f }
    ensures more { IfOk result (λ more. more ≡ true → length image.old.items < length image.new.items) }
    ensures end { IfOk result (λ more. more ≡ false → (f : List ℕ) → D.content disk.old ≡ Some f → length f ≤ length image.new.items) }
    ensures same { D.content disk.new ≡ D.content disk.old }
    ensures crash { Among (D.images disk.old) (D.images disk.new) }
    ensures moments { LeavesOnly D.moment D.left_since disk.old disk.new (D.images disk.old) }
    ensures fault { IsErrOf result ImageFault.Failed → Rose (D.faults disk.old) (D.faults disk.new) }
    ensures later { D.faults disk.old ≤ D.faults disk.new }
    ensures kept { OnOk result (D.faults disk.new ≡ D.faults disk.old) }
    ensures memory { IsErrOf result ImageFault.NoMemory → D.faults disk.new ≡ D.faults disk.old }
    ensures loan { D.loan disk.new ≡ D.loan disk.old }
{
    let at = image.len();
    match disk.read_at(at as u64, piece) {
        Ok(count) => match image.extend_from_slice(piece.split_at(count).0) {
            Ok(()) => Ok(count > 0),
            Err(_) => Err(ImageFault::NoMemory),
        },
        Err(_) => Err(ImageFault::Failed),
    }
}

// Reads the image to its end.
fn read_rest<D: Disk>(
    disk: &mut D,
    image: &mut Vec<u8>,
    piece: &mut [u8],
    size: u64,
) -> Result<(), ImageFault>
    requires room { 0 < length piece.old }
    requires empty { image.old.items ≡ [] }
    requires size { (f : List ℕ) → D.content disk.old ≡ Some f → size ≡ length f }
    ensures whole { OnOk result ((f : List ℕ) → D.content disk.old ≡ Some f → image.new.items ≡ f) }
    ensures same { D.content disk.new ≡ D.content disk.old }
    ensures crash { Among (D.images disk.old) (D.images disk.new) }
    ensures moments { LeavesOnly D.moment D.left_since disk.old disk.new (D.images disk.old) }
    ensures fault { IsErrOf result ImageFault.Failed → Rose (D.faults disk.old) (D.faults disk.new) }
    ensures later { D.faults disk.old ≤ D.faults disk.new }
    ensures kept { OnOk result (D.faults disk.new ≡ D.faults disk.old) }
    ensures memory { IsErrOf result ImageFault.NoMemory → D.faults disk.new ≡ D.faults disk.old }
    ensures loan { D.loan disk.new ≡ D.loan disk.old }
{
    'pieces: while (image.len() as u64) < size {
        if !read_piece(disk, image, piece)? {
            return Ok(());
        }
    }
    Ok(())
}

/// All octets of a disk.
pub(crate) fn read_image<D: Disk>(alloc: Global, disk: &mut D) -> Result<Vec<u8>, ImageFault>
    ensures whole { IfOk result (λ v. (f : List ℕ) → D.content disk.old ≡ Some f → v.items ≡ f) }
    ensures same { D.content disk.new ≡ D.content disk.old }
    ensures crash { Among (D.images disk.old) (D.images disk.new) }
    ensures moments { LeavesOnly D.moment D.left_since disk.old disk.new (D.images disk.old) }
    ensures fault { IsErrOf result ImageFault.Failed → Rose (D.faults disk.old) (D.faults disk.new) }
    ensures later { D.faults disk.old ≤ D.faults disk.new }
    ensures kept { OnOk result (D.faults disk.new ≡ D.faults disk.old) }
    ensures memory { IsErrOf result ImageFault.NoMemory → D.faults disk.new ≡ D.faults disk.old }
    ensures loan { D.loan disk.new ≡ D.loan disk.old }
{
    let size = match disk.size() {
        Ok(size) => size,
        Err(_) => return Err(ImageFault::Failed),
    };
    let mut piece = match zeros(alloc, PIECE) {
        Ok(piece) => piece,
        Err(_) => return Err(ImageFault::NoMemory),
    };
    let mut image = Vec::new(alloc);
    read_rest(disk, &mut image, piece.as_mut_slice(), size)?;
    Ok(image)
}
