//! The place of a name among entries in name order.
ghost use Rattle.std.specs.Prelude.{T, IfOk, IfErr};
ghost use Rattle.std.specs.FinMap as map;
ghost use Rattle.td_values.specs.Order.{text_cmp};
ghost use Rattle.td_values.specs.Proving.Places.{IsPlaceOf, IsGapFor};

use crate::names::Name;

/// Where the name stands in entries in name order, or where it would go.
pub(crate) fn place<X>(entries: &[(Name, X)], name: &Name) -> Result<usize, usize>
    requires { T (map.is_sorted text_cmp entries.now) }
    ensures found { IfOk result (IsPlaceOf entries.now name.now) }
    ensures absent { IfErr result (IsGapFor entries.now name.now) }
{
    entries.binary_search_by(|e| e.0.compare(name))
}
