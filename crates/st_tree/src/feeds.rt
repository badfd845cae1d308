// The line feeds of a text.

ghost use Rattle.std.specs.Prelude.{◌≡◌, IfOk};
ghost use Rattle.st_tree.specs.Feeds.{feeds_from};

use std::alloc::{AllocError, Global};
use tree_items::Items;

/// The places of the line feeds of a text, in bytes from its start.
pub fn feeds_of(alloc: Global, text: &[u8]) -> Result<Items<usize>, AllocError>
    ensures { IfOk result (λ feeds. feeds ≡ feeds_from 0 text.now) }
{
    let mut feeds = Items::new(alloc);
    for at in 0..text.len() {
        if text[at] == b'\n' {
            feeds.push(at)?;
        }
    }
    Ok(feeds)
}
