//! The style sheet of the desk's pages. It stands alone, since a text of this size takes its time to be
//! proved.
#![tactic(auto)]

ghost use Rattle.std.specs.Prelude.{◌≡◌, codes, false, true};
ghost use Rattle.std.specs.List.{list_all};
ghost use Rattle.desk_style.specs.Sheet.{has_text, is_plain};

mod sheet;

/// The style sheet: one for light and dark, screen and paper, from 320 pixels up. It is ASCII without
/// `<`, so it is the same text in each encoding that a browser may take it for. Neither `url(` nor
/// `@import` stands in it: no page asks for anything but the sheet. Of what it looks like nothing is
/// said.
pub fn style_sheet() -> &'static str
    ensures plain { list_all is_plain result.now ≡ true }
    ensures addresses { has_text (codes "url(") result.now ≡ false }
    ensures imports { has_text (codes "@import") result.now ≡ false }
{
    sheet::SHEET
}
