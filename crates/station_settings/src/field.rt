// Why a text has no settings.
ghost use Rattle.std.specs.Prelude.{◌≡◌};
ghost use Rattle.station_settings.specs.Fields.{name_of, is_field};

use station_ports::outside::NoMemory;
use station_ports::texts::Name;

/// What is bad in a text of settings.
#[derive(Debug, Drop)]
pub enum Field {
    /// The text isn't UTF-8, or isn't TOML.
    Toml,
    NameMin,
    NameMax,
    MaxNesting,
    MaxStatements,
    GlobalPrefix,
    Disabled,
    Caller,
    /// A key that is no field.
    Unknown(Name),
}

impl Field {
    /// What a refusal is told by: `toml`, or the key of the field.
    pub fn name(&self) -> &[u8]
        ensures { result.now ≡ name_of self.now }
    {
        match self {
            Field::Toml => b"toml",
            Field::NameMin => b"name_min",
            Field::NameMax => b"name_max",
            Field::MaxNesting => b"max_nesting",
            Field::MaxStatements => b"max_statements",
            Field::GlobalPrefix => b"global_prefix",
            Field::Disabled => b"disabled",
            Field::Caller => b"caller",
            Field::Unknown(key) => key.bytes(),
        }
    }
}

/// Whether it is the key of a field.
pub(crate) fn is_field(key: &str) -> bool
    ensures { result ≡ is_field key.now }
{
    key == "name_min"
        || key == "name_max"
        || key == "max_nesting"
        || key == "max_statements"
        || key == "global_prefix"
        || key == "disabled"
        || key == "caller"
}

/// Why settings aren't read.
#[derive(Debug, Drop)]
pub enum SettingsRefusal {
    /// The text has none: the first field that is bad.
    Bad(Field),
    /// There was no memory for them.
    NoMemory,
}

impl From<NoMemory> for SettingsRefusal {
    ghost use Rattle.station_settings.specs.declared.field.SettingsRefusal.TheVariants as refusal;

    ghost from_gives = { λ _ e. e ≡ refusal.NoMemory };

    fn from(_: NoMemory) -> Self {
        SettingsRefusal::NoMemory
    }
}
