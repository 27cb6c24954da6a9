//! The law of the due moments that the tables keep: the contract of a function that does nothing.
ghost use Rattle.settings_core.specs.declared.settings.Settings.{Settings};
ghost use Rattle.desk_model.specs.Desk.{Desk};
ghost use Rattle.desk_model.specs.IsDesk.{IsDesk};
ghost use Rattle.service_core.specs.Renewing.{KeepDues};

/// Tables that stand for a desk with its due moments keep for each request the moment at which it
/// is due on the desk.
pub fn kept_due_law()
    ensures { (settings : Settings) (desk : Desk) → IsDesk desk → KeepDues settings desk }
{}
