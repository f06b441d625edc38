//! The attributes of variables: type and access (docs/variables.md, "The variable .flags").

ghost use Rattle.std.specs.Prelude.{◌≡◌};
ghost use Rattle.envvars_core.specs.Attributes.{kind_of, access_of, attr_of, plain};

use crate::types::Kind;

/// Who may change a variable, by the letter that `.flags` has for it.
#[derive(Clone, Copy, Debug, PartialEq, Eq)]
pub enum Access {
    /// `a`: everyone.
    Any,
    /// `r`: no one may create, delete or overwrite it.
    ReadOnly,
    /// `o`: no one may delete or overwrite it.
    WriteOnce,
    /// `c`: no one may delete it, nor overwrite a value that is not the default environment's.
    ChangeDefault,
}

/// The attributes of a variable.
#[derive(Clone, Copy, Debug, PartialEq, Eq)]
pub struct Attr {
    /// The type of its values.
    pub kind: Kind,
    /// Who may change it.
    pub access: Access,
}

impl Attr {
    /// What a variable has that no item of `.flags` names.
    pub(crate) const PLAIN: Attr = Attr {
        kind: Kind::String,
        access: Access::Any,
    };
}

/// The attributes that an item's letters mean, the blanks around them taken off.
pub(crate) fn attr_of(letters: &[u8]) -> Attr
    ensures { result ≡ attr_of letters.now }
{
    match letters {
        [] => Attr::PLAIN,
        [kind] => Attr {
            kind: kind_of(*kind),
            access: Access::Any,
        },
        [kind, access, ..] => Attr {
            kind: kind_of(*kind),
            access: access_of(*access),
        },
    }
}

/// The type that a letter means: an unknown one means a string.
fn kind_of(letter: u8) -> Kind
    ensures { result ≡ kind_of letter }
{
    match letter {
        b'd' => Kind::Decimal,
        b'x' => Kind::Hexadecimal,
        b'b' => Kind::Boolean,
        b'i' => Kind::IpAddress,
        b'm' => Kind::MacAddress,
        _ => Kind::String,
    }
}

/// The access that a letter means: an unknown one means any.
fn access_of(letter: u8) -> Access
    ensures { result ≡ access_of letter }
{
    match letter {
        b'r' => Access::ReadOnly,
        b'o' => Access::WriteOnce,
        b'c' => Access::ChangeDefault,
        _ => Access::Any,
    }
}
