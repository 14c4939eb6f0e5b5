//! Entries that a hasher takes, as their frames.

ghost use Rattle.std.specs.Prelude.{◌≡◌, ◌∷◌, ◌++◌, ◌≤◌, ℕ, List, length};
ghost use Rattle.sha2.specs.Hashers.{Holds256};
ghost use Rattle.td_frames.specs.Spelling.{entry_frame, head_of};
ghost use Rattle.td_frames.specs.declared.version.Version.TheVariants.{Second};

use sha2::{Digest, Sha256};
use td_stamps::Entry;

// The head of an entry's frame: its letter, its numbers and the length of its text.
fn head_bytes(entry: &Entry) -> [u8; 18]
    requires { length entry.now.text ≤ 8192 }
    ensures { result ≡ 69 ∷ head_of Second entry.now }
{
    let s = entry.site.to_be_bytes();
    let n = entry.seq.to_be_bytes();
    let c = entry.clock.to_be_bytes();
    let l = (entry.text.as_str().len() as u16).to_be_bytes();
    [
        b'E',
        s[0],
        s[1],
        n[0],
        n[1],
        n[2],
        n[3],
        c[0],
        c[1],
        c[2],
        c[3],
        c[4],
        c[5],
        c[6],
        c[7],
        entry.dialect,
        l[0],
        l[1],
    ]
}

/// Has a hasher take the frame of an entry.
pub fn feed_entry(hasher: &mut Sha256, entry: &Entry)
    requires { length entry.now.text ≤ 8192 }
    ensures { (m : List ℕ) → Holds256 hasher.old m → Holds256 hasher.new (m ++ entry_frame Second entry.now) }
{
    hasher.update(&head_bytes(entry));
    hasher.update(entry.text.as_str().as_bytes());
}
