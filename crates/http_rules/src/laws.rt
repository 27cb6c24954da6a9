//! What holds of every message and every reply.
ghost use Rattle.std.specs.Prelude.{◌≡◌, ◌≤◌, ◌∷◌, ℕ, List, Some};
ghost use Rattle.httpdate.specs.Date.{date_text};
ghost use Rattle.http_rules.specs.Date.{dated, undated};
ghost use Rattle.http_rules.specs.Expectation.{StatesByRules};
ghost use Rattle.http_rules.specs.Target.{origin_form};

use crate::date::is_date;
use httpdate::HttpDate;

/// A reply that was given this date is that reply again once the date is taken away.
pub fn back_law(date: HttpDate)
    ensures { (bytes : List ℕ) → undated (dated (date_text date) bytes) ≡ bytes }
{
    let text = date.to_bytes();
    let _is_date = is_date(&text);
}

/// A target that is a path stays as it is.
pub fn path_law()
    ensures { (path : List ℕ) → origin_form (47 ∷ path) ≡ 47 ∷ path }
{}

/// No body is longer than 262,144 bytes.
#[tactic(auto, using(crate::proofs::Stated::small))]
pub fn stated_law()
    ensures { (head : List ℕ) (n : ℕ) → StatesByRules head (Some n) → n ≤ 262144 }
{}
