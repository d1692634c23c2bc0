//! When a figure is touched.
ghost use Rattle.std.specs.Prelude.{◌≡◌, ◌&&◌};
ghost use Rattle.scr_touched.specs.Comparisons.{is_touched};

/// By whether the figure is one before the record, and after it, and whether its own data and its
/// sources are the same.
pub(crate) fn is_touched(before: bool, after: bool, own: bool, sources: bool) -> bool
    ensures { result ≡ is_touched before after own sources }
{
    (before || after) && !((before && after) && (own && sources))
}
