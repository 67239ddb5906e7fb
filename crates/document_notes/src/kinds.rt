use toml::Value;

/// What may stand at a key.
#[derive(Clone, Copy)]
pub(crate) enum Kind {
    /// A text of one word.
    Text,
    Integer,
    Table,
    /// An array of tables.
    Tables,
    /// An array of texts, each a line.
    Steps,
    /// An array of two texts of one word.
    Pair,
    /// A text without an end of a line.
    Step,
}

impl Kind {
    /// In words.
    pub(crate) fn name(self) -> &'static str {
        match self {
            Kind::Text => "a text of one word, in quotes and of octets from 0x21 to 0x7e",
            Kind::Integer => "an integer",
            Kind::Table => "a table",
            Kind::Tables => "an array of tables",
            Kind::Steps => "an array of texts, each a line",
            Kind::Pair => "an array of two texts of one word",
            Kind::Step => "a text in quotes without an end of a line",
        }
    }

    /// Whether a value is one; of the values of an array of tables or of texts nothing is asked.
    pub(crate) fn is_of(self, value: &Value) -> bool {
        match self {
            Kind::Text => is_word(value),
            Kind::Integer => value.is_integer(),
            Kind::Table => value.is_table(),
            Kind::Tables | Kind::Steps => value.is_array(),
            Kind::Pair => is_pair(value),
            Kind::Step => is_step(value),
        }
    }
}

/// Whether a value is a text of one or more octets, each from 0x21 to 0x7E.
fn is_word(value: &Value) -> bool {
    let Some(text) = value.as_str() else {
        return false;
    };
    let octets = text.as_bytes();
    for octet in octets {
        if *octet < 0x21 || 0x7e < *octet {
            return false;
        }
    }
    !octets.is_empty()
}

/// Whether a value is an array of two such texts.
fn is_pair(value: &Value) -> bool {
    match value.as_array() {
        Some(values) if values.len() == 2 => is_word(&values[0]) && is_word(&values[1]),
        _ => false,
    }
}

/// Whether a value is a text with no end of a line in it.
fn is_step(value: &Value) -> bool {
    let Some(text) = value.as_str() else {
        return false;
    };
    for octet in text.as_bytes() {
        if *octet == b'\n' {
            return false;
        }
    }
    true
}
