//! The keys of a certificate's objects.

ghost use Rattle.std.specs.Prelude.{◌≡◌, ◌++◌, ◌∷◌, IfSome};
ghost use Rattle.mc_cert.specs.Keys.{key_name};

/// A key of a certificate's objects.
#[derive(Clone, Copy, Drop)]
pub(crate) enum Key {
    Flows,
    Group,
    Lan,
    Need,
    Rank,
    Reached,
    Router,
    Source,
    Tree,
    Trees,
    Version,
    Vif,
}

impl Key {
    /// The key whose name the text begins with, up to a quotation mark, and the rest of the text after that.
    /// The keys that a certificate has once aren't looked for.
    #[inline(always)]
    pub(crate) fn at_front(text: &[u8]) -> Option<(Key, &[u8])>
        ensures { IfSome result (λ found. text.now ≡ key_name found.0 ++ 34 ∷ found.1.now) }
    {
        match text {
            [b'l', b'a', b'n', b'"', rest @ ..] => Some((Key::Lan, rest)),
            [b'n', b'e', b'e', b'd', b'"', rest @ ..] => Some((Key::Need, rest)),
            [b'r', b'a', b'n', b'k', b'"', rest @ ..] => Some((Key::Rank, rest)),
            [b'r', b'o', b'u', b't', b'e', b'r', b'"', rest @ ..] => Some((Key::Router, rest)),
            [b'v', b'i', b'f', b'"', rest @ ..] => Some((Key::Vif, rest)),
            [b'g', b'r', b'o', b'u', b'p', b'"', rest @ ..] => Some((Key::Group, rest)),
            [b's', b'o', b'u', b'r', b'c', b'e', b'"', rest @ ..] => Some((Key::Source, rest)),
            [b't', b'r', b'e', b'e', b'"', rest @ ..] => Some((Key::Tree, rest)),
            _ => None,
        }
    }

    /// The key with this name.
    pub(crate) fn of_name(name: &[u8]) -> Option<Key>
        ensures { IfSome result (λ key. name.now ≡ key_name key) }
    {
        match name {
            b"flows" => Some(Key::Flows),
            b"group" => Some(Key::Group),
            b"lan" => Some(Key::Lan),
            b"need" => Some(Key::Need),
            b"rank" => Some(Key::Rank),
            b"reached" => Some(Key::Reached),
            b"router" => Some(Key::Router),
            b"source" => Some(Key::Source),
            b"tree" => Some(Key::Tree),
            b"trees" => Some(Key::Trees),
            b"version" => Some(Key::Version),
            b"vif" => Some(Key::Vif),
            _ => None,
        }
    }
}
