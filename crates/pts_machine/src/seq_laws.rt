//! Laws of settings, and of the latest settings of a list.
ghost use Rattle.std.specs.Prelude.{◌≡◌, ◌<◌, ◌≤◌, ◌+◌, ◌++◌, ◌∷◌, [], ℕ, List, length, false, map as each};
ghost use Rattle.std.specs.List.{All};
ghost use Rattle.box_events.specs.declared.settings.Setting.{Setting};
ghost use Rattle.pts_machine.specs.declared.mode.Mode.TheVariants.{Live};
ghost use Rattle.pts_machine.specs.States.{is_live};
ghost use Rattle.box_events.specs.SettingLists.{Values, Dated, IsLatest, AreSince, IsOverlay, NeverFallFrom};
ghost use Rattle.pts_machine.specs.Packs.{Pack, size};
ghost use Rattle.pts_machine.specs.SeqStates.{SettingsState, IsSoundState, new_settings, hear_pack, overlaid, asked, asks_again, forgotten, loaded};
ghost use Rattle.pts_machine.specs.Latest.{latest, IsStretch, AreStretches, IsSince, IsLatestState};
ghost use Rattle.pts_machine.specs.Agreeing.{LieWithin, SettingsAgree};
ghost use Rattle.pts_machine.specs.SeqLaws.{OverlayStaysLatest, PackStaysSince, OverlayStaysSince, IsAppendedStretch, PackStaysAgreed, OverlayStaysAgreed};

/// The latest settings of a list are one table, and settings stay the latest as they hear packs and as the list grows.
pub fn settings_stay_latest()
    ensures is { (L : List Dated) (s : ℕ) → IsLatest L s (latest L s) }
    ensures one { (L : List Dated) (s : ℕ) (table : Values) → IsLatest L s table → table ≡ latest L s }
    ensures new { (L : List Dated) → IsLatestState L new_settings }
    ensures hear { (L : List Dated) (b : SettingsState) (start end : ℕ) (pack : Pack) → IsLatestState L b → IsStretch L start end pack → IsLatestState L (hear_pack b start end pack).state }
    ensures overlay { OverlayStaysLatest }
    ensures grows { (L more : List Dated) (b : SettingsState) → IsSoundState b → b.at ≤ length L → IsLatestState L b → IsLatestState (L ++ more) b }
{}

/// Where dates never fall along a list, no setting past the seq is dated before the date held: each pack that is its stretch keeps
/// that, each overlay does whose date is not past that of a setting past its seq, and so does a list that grows.
pub fn settings_stay_since()
    ensures within { (L : List Dated) (b : SettingsState) → IsSoundState b → AreStretches L b.held → LieWithin L b.held }
    ensures hear { PackStaysSince }
    ensures overlay { OverlayStaysSince }
    ensures grows { (L more : List Dated) (b : SettingsState) → All (λ e. b.date ≤ e.date) more → IsSince L b → IsSince (L ++ more) b }
{}

/// What is known of a list of settings stays as it grows. Settings that are appended with one date are a stretch, and dates that never
/// fall go on so where a setting is appended that isn't dated before the others.
pub fn lists_of_settings_grow()
    ensures stretch { (L more : List Dated) (start end : ℕ) (pack : Pack) → end ≤ length L → IsStretch L start end pack → IsStretch (L ++ more) start end pack }
    ensures overlay { (L more : List Dated) (seq date : ℕ) (settings : List Setting) → seq ≤ length L → IsOverlay L seq date settings → IsOverlay (L ++ more) seq date settings }
    ensures since { (L more : List Dated) (seq date : ℕ) → AreSince L seq date → All (λ e. date ≤ e.date) more → AreSince (L ++ more) seq date }
    ensures appended { IsAppendedStretch }
    ensures rises { (L : List Dated) (e : Dated) (seq : ℕ) → NeverFallFrom seq L → All (λ x. x.date ≤ e.date) L → NeverFallFrom seq (L ++ e ∷ []) }
{}

/// Settings that agree with a server's list, whose dates never fall and are not past now, agree with it after each step.
pub fn settings_agree()
    ensures new { (L : List Dated) (now : ℕ) → SettingsAgree L now new_settings }
    ensures load { (L : List Dated) (now seq date : ℕ) (table : Values) → IsLatest L seq table → seq ≤ length L → AreSince L seq date → date ≤ now → SettingsAgree L now (loaded seq date table) }
    ensures hear { PackStaysAgreed }
    ensures ask { (L : List Dated) (now : ℕ) (b : SettingsState) (number : ℕ) → SettingsAgree L now b → SettingsAgree L now (asked b number) }
    ensures again { (L : List Dated) (now : ℕ) (b : SettingsState) → SettingsAgree L now b → SettingsAgree L now (asks_again b) }
    ensures overlay { OverlayStaysAgreed }
    ensures forget { (L : List Dated) (now : ℕ) (b : SettingsState) → SettingsAgree L now b → SettingsAgree L now (forgotten b) }
    ensures grows { (L more : List Dated) (now later : ℕ) (b : SettingsState) → All (λ e. b.date ≤ e.date) more → now ≤ later → SettingsAgree L now b → SettingsAgree (L ++ more) later b }
{}

/// Each step keeps what holds of all settings.
pub fn settings_stay_sound()
    ensures new { IsSoundState new_settings }
    ensures load { (seq date : ℕ) (table : Values) → IsSoundState (loaded seq date table) }
    ensures hear { (b : SettingsState) (start end : ℕ) (pack : Pack) → IsSoundState b → start < end → end ≡ start + size pack → end ≤ 1000000 → IsSoundState (hear_pack b start end pack).state }
    ensures ask { (b : SettingsState) (number : ℕ) → IsSoundState b → IsSoundState (asked b number) }
    ensures again { (b : SettingsState) → IsSoundState b → IsSoundState (asks_again b) }
    ensures overlay { (b : SettingsState) (settings : List Setting) (seq date : ℕ) → IsSoundState b → IsSoundState (overlaid b settings seq date) }
    ensures forget { (b : SettingsState) → IsSoundState b → IsSoundState (forgotten b) }
{}

/// Hearing leaves the mode, and all but what is held where the settings aren't live. The seq of an overlay is reached, and the
/// settings are live then.
pub fn settings_move_on()
    ensures mode { (b : SettingsState) (start end : ℕ) (pack : Pack) → (hear_pack b start end pack).state.mode ≡ b.mode }
    ensures stands { (b : SettingsState) (start end : ℕ) (pack : Pack) → is_live b.mode ≡ false → (hear_pack b start end pack).state ≡ record b { held = (hear_pack b start end pack).state.held } }
    ensures reaches { (b : SettingsState) (settings : List Setting) (seq date : ℕ) → IsSoundState b → seq ≤ (overlaid b settings seq date).at }
    ensures live { (b : SettingsState) (settings : List Setting) (seq date : ℕ) → (overlaid b settings seq date).mode ≡ Live }
{}
