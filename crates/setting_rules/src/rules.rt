//! How the values of a key are evaluated.
ghost use Rattle.std.specs.Prelude.{◌≡◌};
ghost use Rattle.setting_rules.specs.Rules.{rule_of, unit_rule, other_rule, manager_rule};

use crate::dependency_lists::UNIT;
use crate::kinds::DepKind;
use profiles::Profile;

/// How the values of a key are evaluated (systemd.unit(5); systemd.service(5); systemd.syntax(7), "Introduction").
#[derive(Clone, Copy, Debug, PartialEq, Eq)]
pub enum KeyRule {
    /// The section or the key begins with `X-`: its values don't count.
    Ignored,
    /// The key sets dependencies: all values that aren't empty count.
    Dependency,
    /// The key is `RefuseManualStart`, or for a manager `DefaultDependencies`: the last valid boolean counts.
    Switch,
    /// The name begins with `Condition`: an empty value of any such key empties this one.
    Condition,
    /// The name begins with `Assert`: an empty value of any such key empties this one.
    Assertion,
    /// Any other key: an empty value empties it.
    Plain,
    /// The key is kept whole: all values that aren't empty count, and an empty one is passed over.
    Kept,
}

impl KeyRule {
    /// Returns how the values of this key in this section are evaluated by a profile. Allocates nothing.
    #[tactic(auto, unfolding(crate::specs::Rules::rule_of))]
    pub(crate) fn of(profile: Profile, section: &[u8], key: &[u8]) -> KeyRule
        ensures rule { result ≡ rule_of profile section.now key.now }
    {
        if section.starts_with(b"X-") || key.starts_with(b"X-") {
            KeyRule::Ignored
        } else if section == UNIT {
            KeyRule::in_unit(profile, key)
        } else {
            KeyRule::of_other(profile, section, key)
        }
    }

    // The same for a key of `[Unit]`.
    fn in_unit(profile: Profile, key: &[u8]) -> KeyRule
        ensures rule { result ≡ unit_rule profile key.now }
    {
        if DepKind::of_key(profile, key).is_some() {
            KeyRule::Dependency
        } else if key == b"RefuseManualStart".as_slice() {
            KeyRule::Switch
        } else if key.starts_with(b"Condition") {
            KeyRule::Condition
        } else if key.starts_with(b"Assert") {
            KeyRule::Assertion
        } else {
            KeyRule::of_other(profile, UNIT, key)
        }
    }

    // The same for a key that has no rule of its own by files alone.
    fn of_other(profile: Profile, section: &[u8], key: &[u8]) -> KeyRule
        ensures rule { result ≡ other_rule profile section.now key.now }
    {
        match profile {
            Profile::Files => KeyRule::Plain,
            Profile::Manager => KeyRule::by_manager(section, key),
        }
    }

    // How a manager evaluates such a key.
    fn by_manager(section: &[u8], key: &[u8]) -> KeyRule
        ensures rule { result ≡ manager_rule section.now key.now }
    {
        if section == UNIT && key == b"DefaultDependencies".as_slice() {
            KeyRule::Switch
        } else if section == UNIT && key == b"RequiresMountsFor".as_slice() {
            KeyRule::Kept
        } else if section == b"Service".as_slice() && key == b"Sockets".as_slice() {
            KeyRule::Kept
        } else {
            KeyRule::Plain
        }
    }
}
