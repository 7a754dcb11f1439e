// The check of a packet that board and tool share, for programs in other languages.
ghost use Rattle.std.specs.Prelude.{◌≡◌};
ghost use Rattle.framing.specs.Packet.{parsed_of};
ghost use Rattle.firmware.specs.Packet.{parts_of};

use framing::Places;

// Refusal 0: the parts stand at these places. With any other every place is 0.
#[repr(C)]
#[derive(Clone, Copy)]
pub struct Parts {
    pub refusal: u16,
    pub places: Places,
}

// Takes a packet of any length apart, as `udgornwy_packet`, `udgornwy_read` and `udgornwy_list` do.
pub fn udgornwy_parse(packet: &[u8]) -> Parts
    ensures { result ≡ parts_of (parsed_of packet.now) }
{
    match framing::read(packet) {
        Ok(places) => Parts { refusal: 0, places },
        Err(refusal) => Parts {
            refusal: u16::from(refusal.number()),
            places: Places {
                id: 0,
                password: 0,
                function: 0,
                block: 0,
                end: 0,
            },
        },
    }
}
