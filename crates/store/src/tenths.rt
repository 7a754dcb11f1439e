// Tenths of a degree. The field is this module's own: elsewhere only `tenths_of` makes one, and it asks that the bits are no mark.
ghost use Rattle.std.specs.Prelude.{false, ◌≡◌};
ghost use Rattle.store.specs.Temperatures.{is_mark, tenths_of, bits_of};

// A measured temperature.
#[derive(Clone, Copy)]
pub struct Tenths {
    tenths: i16,
}

// Sixteen bits as a signed number, and back.
pub(crate) fn tenths_of(bits: u16) -> Tenths
    requires { is_mark bits ≡ false }
    ensures { result ≡ tenths_of bits }
{
    Tenths {
        tenths: bits.cast_signed(),
    }
}

pub(crate) fn bits_of(temperature: Tenths) -> u16
    requires { is_mark (bits_of temperature.tenths) ≡ false }
    ensures { result ≡ bits_of temperature.tenths }
{
    temperature.tenths.cast_unsigned()
}
