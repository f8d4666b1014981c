//! The order of lines.

ghost use Rattle.std.specs.Prelude.{◌≡◌, map, option_map, string_bytes, OnOk, OnErr, IsPermutation, IsSorted};
ghost use Rattle.std.specs.List.Sorted.{IsStableByKey};
ghost use Rattle.link_lines.specs.Line.{link_value};
ghost use Rattle.link_lines.specs.Order.{text_cmp, line_cmp};

use crate::line::Link;
use std::alloc::AllocError;
use std::cmp::Ordering;

/// Which of two texts stands first: an absent one, and then by bytes.
fn compare_texts(a: &Option<String>, b: &Option<String>) -> Ordering
    ensures { result ≡ text_cmp (option_map string_bytes a.now) (option_map string_bytes b.now) }
{
    a.cmp(b)
}

/// Which of two lines stands first: by side, and then by the bytes of module, name and item.
fn compare_lines(a: &Link, b: &Link) -> Ordering
    ensures { result ≡ line_cmp (link_value a.now) (link_value b.now) }
{
    a.side
        .cmp(&b.side)
        .then_with(|| compare_texts(&a.module, &b.module))
        .then_with(|| compare_texts(&a.name, &b.name))
        .then_with(|| compare_texts(&a.item, &b.item))
}

/// Puts links in order: by side (imports, exports, destructors, what is called at the start), and then by the bytes of module, name
/// and item, an absent one before any other. Links that agree in these keep their order. Fails only for want of memory, and then the
/// links stay as they were.
pub fn sort_lines(links: &mut Vec<Link>) -> Result<(), AllocError>
    ensures permutation { IsPermutation (map link_value links.old.items) (map link_value links.new.items) }
    ensures sorted { OnOk result (IsSorted line_cmp (map link_value links.new.items)) }
    ensures stable { IsStableByKey link_value line_cmp links.old.items links.new.items }
    ensures err { OnErr result (links.new.items ≡ links.old.items) }
{
    links.sort_by(compare_lines)
}
