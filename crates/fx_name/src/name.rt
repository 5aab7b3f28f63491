//! A text that is a name.
ghost use Rattle.std.specs.Prelude.{◌≡◌, IfOk, MatchOption, IsFalse, string_bytes};
ghost use Rattle.fx_model.specs.Names.{IsName, is_name};

use crate::word::is_name;
use fx_num::Memory;
use std::alloc::Global;
use std::marker::Model;
use std::str;

/// The name of a function, an input, a state or a temp: a letter or `_`, then letters, digits and `_`, and no reserved
/// word.
#[derive(Debug, Drop)]
pub struct Name {
    text: String,
}

impl Model for Name {
    ghost use Rattle.std.specs.Prelude.{List, ℕ, string_bytes};
    ghost use Rattle.fx_model.specs.Names.{IsName};

    ghost Value = { List ℕ };

    ghost view = { λ n. string_bytes n.text };

    ghost invariant = { λ n. IsName (string_bytes n.text) };
}

impl Name {
    /// A text that is a name.
    pub fn new(text: String) -> Name
        requires { IsName (string_bytes text) }
        ensures { result ≡ string_bytes text }
    {
        Name { text }
    }

    /// The name that these bytes are, and None where they are none.
    pub fn read(alloc: Global, bytes: &[u8]) -> Result<Option<Name>, Memory>
        ensures { IfOk result (λ found. MatchOption found (IsFalse (is_name bytes.now)) (λ name. name ≡ bytes.now)) }
    {
        let Ok(text) = str::from_utf8(bytes) else {
            return Ok(None);
        };
        if !is_name(bytes) {
            return Ok(None);
        }
        let text = String::from_str(alloc, text)?;
        Ok(Some(Name { text }))
    }

    /// Its text.
    pub fn as_str(&self) -> &str
        ensures text { result.now ≡ self.now }
        ensures name { IsName result.now }
    {
        self.text.as_str()
    }

    /// An equal name.
    pub fn copy(&self, alloc: Global) -> Result<Name, Memory>
        ensures { IfOk result (λ n. n ≡ self.now) }
    {
        let text = String::from_str(alloc, self.text.as_str())?;
        Ok(Name { text })
    }
}
