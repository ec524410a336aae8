ghost use Rattle.std.specs.Prelude.{◌≡◌, drop, option_map, slice_get};
ghost use Rattle.zb_pointers.specs.Seen.{files_in, numbered_file};

use crate::head::FileHead;
use crate::kept::Kept;
use std::collections::btree_map::Iter;
use std::marker::Model;
use zb_types::{Fid, Ptr};

/// Files that are left to go through, in the order of their numbers. Contracts see them as a list.
#[derive(Drop)]
pub struct Files<'a> {
    rest: Iter<'a, u32, Kept>,
}

impl<'a> Model for Files<'a> {
    ghost use Rattle.zb_tables.specs.Fold.{Files as Listed};
    ghost use Rattle.zb_pointers.specs.Seen.{files_in};

    ghost Value = { Listed };

    ghost view = { λ a. files_in a.rest };
}

impl<'a> Files<'a> {
    pub(crate) fn of(rest: Iter<'a, u32, Kept>) -> Files<'a>
        ensures { result ≡ files_in rest.entry }
    {
        Files { rest }
    }

    /// The next file, with its blocks in the order of their numbers. It takes a step, and one for each number between
    /// that room was made for and that has no file.
    pub fn next(&mut self) -> Option<(Fid, FileHead, &'a [(u32, Ptr)])>
        ensures first { option_map (λ f. numbered_file f.0 f.1 f.2.now) result ≡ slice_get self.old 0 }
        ensures rest { self.new ≡ drop 1 self.old }
    {
        while let Some((number, kept)) = self.rest.next() {
            if let Some(head) = kept.head {
                return Some((Fid(*number), head, kept.blocks.slice()));
            }
        }
        None
    }
}
