//! What holds of every page.
ghost use Rattle.std.specs.Prelude.{◌≡◌, ℕ, Bool, List, [], true};
ghost use Rattle.std.specs.List.{list_all};
ghost use Rattle.page_core.specs.Escape.{escaped, is_harmless};
ghost use Rattle.page_core.specs.Markup.{markup_of};
ghost use Rattle.page_core.specs.Page.{Part, page_bytes, without_texts};
ghost use Rattle.page_core.specs.Reading.{InText, IsPage, after, outline, reading, reading_of};
ghost use Rattle.page_core.specs.Template.{IsTemplate, filled, markup_in};

/// An escaped text has none of `<`, `>`, `"` and `'`, and escaping loses nothing: two texts that
/// are escaped to the same bytes are the same.
pub fn escape_law()
    ensures harmless { (text : List ℕ) → list_all is_harmless (escaped text) ≡ true }
    ensures lossless { (text other : List ℕ) → escaped text ≡ escaped other → text ≡ other }
{}

/// Whatever people write, the markup that is read in a page is the same: that of the page with
/// every text empty. The page ends in text, as that one does: so nothing in it is lost, as an element
/// or an attribute of a script would be, or an address of another place. And each of its bytes is read
/// as it should be: those of a text as content, and those of markup as in the markup alone.
pub fn no_injection_law()
    ensures outline { (parts : List Part) → IsPage parts
        → outline InText (page_bytes parts) ≡ outline InText (page_bytes (without_texts parts)) }
    ensures reading { (parts : List Part) → IsPage parts
        → reading InText (page_bytes parts) ≡ reading_of InText parts }
    ensures ends { (parts : List Part) → IsPage parts → after InText (page_bytes parts) ≡ InText }
{}

/// A template whose holes stand in text or in values is a page whatever texts fill it and whatever is
/// shown of it, and the markup that is read in it is that of the template with no text at all.
pub fn template_law()
    ensures page { (template : List ℕ) (texts : List (List ℕ)) (flags : List Bool)
        → IsTemplate template → IsPage (filled template texts flags) }
    ensures empty { (template : List ℕ) (texts : List (List ℕ)) (flags : List Bool)
        → without_texts (filled template texts flags) ≡ filled template [] flags }
    ensures markup { (template : List ℕ) (texts : List (List ℕ)) (flags : List Bool)
        → IsTemplate template → markup_of (filled template texts flags) ≡ markup_in template flags }
{}
