//! What holds of the settings of each text.

ghost use Rattle.std.specs.Prelude.{ℕ, List};
ghost use Rattle.settings_core.specs.Reading.{IsSettingsOf};
ghost use Rattle.settings_core.specs.Sound.{AreSound};
ghost use Rattle.settings_core.specs.declared.settings.Settings.{Settings};

/// No lifecycle of the settings that a text states has a fault.
pub fn sound_law()
    ensures { (bytes : List ℕ) (settings : Settings) → IsSettingsOf bytes settings
        → AreSound settings }
{}
