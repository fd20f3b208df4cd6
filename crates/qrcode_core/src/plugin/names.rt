//! The names in a map of a registry, in the order of their bytes.
ghost use Rattle.std.specs.Prelude.{◌≡◌, map};
ghost use Rattle.std.specs.Iterator.{item_count, YieldsFirstRef};
ghost use Rattle.std.specs.String.{string_bytes};
ghost use Rattle.qrcode_core.specs.Plugins.{names_left};

use std::collections::btree_map::Keys;
use std::iter::FusedIterator;

/// An iterator over the names in a map of a registry: each name once, in the order of their bytes.
#[derive(Drop)]
pub struct Names<'a, V> {
    keys: Keys<'a, String, V>,
}

impl<'a, V> Names<'a, V> {
    /// Returns the iterator over the keys of a map.
    pub(crate) fn new(keys: Keys<'a, String, V>) -> Names<'a, V>
        ensures { names_left result ≡ map string_bytes keys.entry }
    {
        Names { keys }
    }
}

impl<'a, V> Iterator for Names<'a, V> {
    type Item = &'a str;

    ghost next_gives = { YieldsFirstRef names_left };

    ghost remaining = { item_count names_left };

    fn next(&mut self) -> Option<&'a str> {
        Some(self.keys.next()?.as_str())
    }
}

impl<'a, V> FusedIterator for Names<'a, V> {}
