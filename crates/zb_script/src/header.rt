ghost use Rattle.std.specs.Prelude.{◌++◌};
ghost use Rattle.std.specs.Option.{option_map};
ghost use Rattle.zb_claims.specs.Reading.{Reads};
ghost use Rattle.zb_claims.specs.Text.{newline, header_text};
ghost use Rattle.zb_script.specs.Numbers.{IsField};
ghost use Rattle.zb_script.specs.Headers.{named_text, AreNumbers, sizes_text, IsGeometry};

use crate::numbers::{field, number};
use crate::spaces::behind;
use zb_types::Geometry;

/// The sizes of a header, whatever their limits.
#[derive(Clone, Copy, Debug, PartialEq, Eq)]
pub struct Sizes {
    pub servers: u32,
    pub clients: u32,
    pub fragment: u32,
    pub block: u32,
    pub slots: u32,
}

// The number behind this name, and what stands behind that number's space.
fn named<'a>(name: &[u8], bytes: &'a [u8]) -> Option<(u32, &'a [u8])>
    ensures { Reads IsField (named_text name.now) bytes.now (option_map (λ field. (field.0, field.1.now)) result) }
{
    field(behind(name, bytes)?)
}

fn read_sizes(words: &[u8]) -> Option<Sizes>
    ensures { Reads AreNumbers sizes_text words.now result }
{
    let (servers, rest) = named(b"zebra 1 servers ", words)?;
    let (clients, rest) = named(b"clients ", rest)?;
    let (fragment, rest) = named(b"fragment ", rest)?;
    let (block, rest) = named(b"block ", rest)?;
    let slots = number(behind(b"slots ", rest)?)?;
    Some(Sizes {
        servers,
        clients,
        fragment,
        block,
        slots,
    })
}

/// The system whose header these bytes are, without the line end. None exactly where they are the header of no system,
/// also where a size is out of its limits.
pub fn read_header(words: &[u8]) -> Option<Geometry>
    ensures { Reads IsGeometry header_text (words.now ++ newline) result }
{
    let sizes = read_sizes(words)?;
    Geometry::new(
        sizes.servers,
        sizes.clients,
        sizes.fragment,
        sizes.block,
        sizes.slots,
    )
    .ok()
}
