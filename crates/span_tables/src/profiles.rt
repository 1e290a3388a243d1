//! The properties of a parameter set's profile, by name. This is the only module that distinguishes profiles
//! (docs/FORMATS.md, "Parameter file").
ghost use Rattle.std.specs.Prelude.{◌≡◌};
ghost use Rattle.span_tables.specs.Profiles.{facts_of};

use crate::limits::VALUE_PROFILE;

/// The properties of a profile. Each is true from the profile that introduces it.
#[derive(Clone, Copy, Debug, PartialEq, Eq)]
pub struct ProfileFacts {
    /// Options have a value, which is in their CONTRACT records.
    pub options_have_value: bool,
}

/// Returns the properties of a profile.
pub fn facts_of(profile: u8) -> ProfileFacts
    ensures { result ≡ facts_of profile }
{
    ProfileFacts {
        options_have_value: VALUE_PROFILE <= profile,
    }
}
