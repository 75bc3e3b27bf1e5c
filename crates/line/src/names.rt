// The words of a line.
ghost use Rattle.std.specs.Prelude.{◌≡◌};
ghost use Rattle.line.specs.Names.{name_text, Asked};

#[derive(Clone, Copy, PartialEq, Eq, Debug)]
pub(crate) enum Name {
    Message,
    Node,
    Bytes,
    Timed,
    Event,
    Jitter,
    Due,
}

impl Name {
    pub(crate) fn text(self) -> &'static [u8]
        ensures is { result.now ≡ name_text self }
        ensures asked { Asked result.now }
    {
        match self {
            Name::Message => b"message",
            Name::Node => b"node",
            Name::Bytes => b"bytes",
            Name::Timed => b"timed",
            Name::Event => b"event",
            Name::Jitter => b"jitter",
            Name::Due => b"due",
        }
    }
}
