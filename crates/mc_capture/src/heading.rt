ghost use Rattle.std.specs.Prelude.{◌≡◌, ◌<◌, length, take, MatchOption};
ghost use Rattle.mc_capture.specs.Headings.{front_of};

/// What stands before the bytes of a record.
#[derive(Clone, Copy)]
pub(crate) struct Heading {
    /// What happened.
    pub(crate) kind: u8,
    /// On which connection.
    pub(crate) connection: u32,
    /// How many bytes the record carries.
    pub(crate) size: u32,
}

/// The heading that nine bytes are. None where fewer are there.
pub(crate) fn heading_of(bytes: &[u8]) -> Option<Heading>
    ensures { MatchOption result (length bytes.now < 9)
        (λ h. take 9 bytes.now ≡ front_of h) }
{
    let (kind, rest) = bytes.split_first()?;
    let (connection, rest) = rest.split_first_chunk::<4>()?;
    let (size, _) = rest.split_first_chunk::<4>()?;
    Some(Heading {
        kind: *kind,
        connection: u32::from_be_bytes(*connection),
        size: u32::from_be_bytes(*size),
    })
}

/// The nine bytes of a heading.
#[tactic(auto, unfolding(mc_bytes::specs::NumberBytes::number_spelling))]
pub(crate) fn heading_bytes(front: Heading) -> [u8; 9]
    ensures { result ≡ front_of front }
{
    let connection = front.connection.to_be_bytes();
    let size = front.size.to_be_bytes();
    [
        front.kind,
        connection[0],
        connection[1],
        connection[2],
        connection[3],
        size[0],
        size[1],
        size[2],
        size[3],
    ]
}
