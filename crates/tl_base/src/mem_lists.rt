//! Files and links in memory: by name, by index, and written to.
ghost use Rattle.std.specs.Prelude.{◌≡◌, ◌<◌, ◌≤◌, ◌++◌, ◌-◌, List, ℕ, length, min, take, map, set, get_or, [], IfSome, IfNone, vec_capacity};
ghost use Rattle.std.specs.List.{All};
ghost use Rattle.tl_base.specs.MemoryContents.{index_from, origin_bytes, link_bytes, link_written, Reserves};

use crate::mem_contents::{MemFile, MemLink, Origin};
use crate::pieces::put;

/// The first file with the name.
pub fn index_of(files: &[MemFile], name: &str) -> Option<usize>
    ensures { result ≡ index_from 0 files.now name.now }
{
    for (i, file) in files.iter().enumerate() {
        if file.name.as_slice() == name.as_bytes() {
            return Some(i);
        }
    }
    None
}

/// The bytes of a file or of a link; none where it isn't there.
pub fn bytes_of<'a>(files: &'a [MemFile], links: &'a [MemLink], origin: Origin) -> &'a [u8]
    ensures { result.now ≡ origin_bytes files.now links.now origin }
{
    match origin {
        Origin::File { index } => match files.get(index) {
            Some(file) => file.bytes.as_slice(),
            None => &[],
        },
        Origin::Link { index } => match links.get(index) {
            Some(link) => link.bytes.as_slice(),
            None => &[],
        },
    }
}

/// Appends what fits of a piece to what was written to a link. None where nothing fits.
pub fn put_at(links: &mut [MemLink], index: usize, room: usize, piece: &[u8]) -> Option<usize>
    requires there { index < length links.old }
    requires room { All (Reserves room) links.old }
    requires some { 0 < length piece.now }
    ensures taken { IfSome result (λ n. (0 < n) × (n ≤ length piece.now) × (map link_written links.new ≡ set (map link_written links.old) index (get_or (map link_written links.old) index [] ++ take n piece.now))) }
    ensures count { IfSome result (λ n. n ≡ min (length piece.now) (room - length (get_or (map link_written links.old) index []))) }
    ensures full { IfNone result ((map link_written links.new ≡ map link_written links.old) × (room ≤ length (get_or (map link_written links.old) index []))) }
    ensures given { map link_bytes links.new ≡ map link_bytes links.old }
    ensures room { All (Reserves room) links.new }
{
    let link = &mut links[index];
    put(&mut link.written, room, piece)
}

/// Empties what was written to a link.
pub fn clear_at(links: &mut [MemLink], index: usize, room: usize)
    requires there { index < length links.old }
    requires room { All (Reserves room) links.old }
    ensures written { map link_written links.new ≡ set (map link_written links.old) index [] }
    ensures given { map link_bytes links.new ≡ map link_bytes links.old }
    ensures room { All (Reserves room) links.new }
{
    let link = &mut links[index];
    link.written.clear();
}
