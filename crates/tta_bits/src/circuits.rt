//! The circuits of the operations as text. Divisions hand in none.

ghost use Rattle.std.specs.Prelude.{◌≡◌, codes};
ghost use Rattle.tta_own_circuits.specs.Texts.{IsTextOf};
ghost use Rattle.tta_bits.specs.Cited.{plain};
ghost use Rattle.tta_bits.specs.Circuits.{counted_ones, counted_zeros, extended_word, greater_word};
ghost use Rattle.tta_bits.specs.Circuits.{lesser_word, reversed, turned_left};

use crate::bits::Bits;
use tta_own_circuits::{CircuitText, CircuitUnit};

/// A circuit that has a word alone.
fn of_word(word: &'static [u8]) -> CircuitText
    ensures before { result.before.now ≡ codes "begin\n" }
    ensures word { result.word.now ≡ word.now }
{
    CircuitText {
        before: b"begin\n".as_slice(),
        word,
    }
}

/// The word a turned to the left by b.
fn turned() -> CircuitText
    ensures { IsTextOf result turned_left }
{
    CircuitText {
        before: b"reg [63:0] t_0;\nbegin\nt_0 = ({a,a})<<(b[0+:5]);\n".as_slice(),
        word: b"t_0[32+:32]".as_slice(),
    }
}

/// The zeros above the highest bit of b that is set.
fn zeros() -> CircuitText
    ensures { IsTextOf result (plain counted_zeros) }
{
    of_word(
        b"{26'd0,(b[31+:1])?(6'd0):(b[30+:1])?(6'd1):(b[29+:1])?(6'd2):\
            (b[28+:1])?(6'd3):(b[27+:1])?(6'd4):(b[26+:1])?(6'd5):(b[25+:1])?(6'd6):\
            (b[24+:1])?(6'd7):(b[23+:1])?(6'd8):(b[22+:1])?(6'd9):(b[21+:1])?(6'd10):\
            (b[20+:1])?(6'd11):(b[19+:1])?(6'd12):(b[18+:1])?(6'd13):(b[17+:1])?(6'd14):\
            (b[16+:1])?(6'd15):(b[15+:1])?(6'd16):(b[14+:1])?(6'd17):(b[13+:1])?(6'd18):\
            (b[12+:1])?(6'd19):(b[11+:1])?(6'd20):(b[10+:1])?(6'd21):(b[9+:1])?(6'd22):\
            (b[8+:1])?(6'd23):(b[7+:1])?(6'd24):(b[6+:1])?(6'd25):(b[5+:1])?(6'd26):\
            (b[4+:1])?(6'd27):(b[3+:1])?(6'd28):(b[2+:1])?(6'd29):(b[1+:1])?(6'd30):\
            (b[0+:1])?(6'd31):6'd32}"
            .as_slice(),
    )
}

/// How many bits of b are set.
fn ones() -> CircuitText
    ensures { IsTextOf result (plain counted_ones) }
{
    of_word(
        b"{26'd0,({5'd0,b[0+:1]})+(({5'd0,b[1+:1]})+(({5'd0,b[2+:1]})+(\
            ({5'd0,b[3+:1]})+(({5'd0,b[4+:1]})+(({5'd0,b[5+:1]})+(({5'd0,b[6+:1]})+(\
            ({5'd0,b[7+:1]})+(({5'd0,b[8+:1]})+(({5'd0,b[9+:1]})+(({5'd0,b[10+:1]})+(\
            ({5'd0,b[11+:1]})+(({5'd0,b[12+:1]})+(({5'd0,b[13+:1]})+(({5'd0,b[14+:1]})+(\
            ({5'd0,b[15+:1]})+(({5'd0,b[16+:1]})+(({5'd0,b[17+:1]})+(({5'd0,b[18+:1]})+(\
            ({5'd0,b[19+:1]})+(({5'd0,b[20+:1]})+(({5'd0,b[21+:1]})+(({5'd0,b[22+:1]})+(\
            ({5'd0,b[23+:1]})+(({5'd0,b[24+:1]})+(({5'd0,b[25+:1]})+(({5'd0,b[26+:1]})+(\
            ({5'd0,b[27+:1]})+(({5'd0,b[28+:1]})+(({5'd0,b[29+:1]})+(({5'd0,b[30+:1]})+(\
            ({5'd0,b[31+:1]})+(6'd0))))))))))))))))))))))))))))))))}"
            .as_slice(),
    )
}

/// The bits of b in the other order.
fn reversed() -> CircuitText
    ensures { IsTextOf result (plain reversed) }
{
    of_word(
        b"{{{{{{{{{{{{{{{{{{{{{{{{{{{{{{{b[0+:1],b[1+:1]},b[2+:1]},b[3+:1]},b[4+:1]},\
            b[5+:1]},b[6+:1]},b[7+:1]},b[8+:1]},b[9+:1]},b[10+:1]},b[11+:1]},b[12+:1]},\
            b[13+:1]},b[14+:1]},b[15+:1]},b[16+:1]},b[17+:1]},b[18+:1]},b[19+:1]},\
            b[20+:1]},b[21+:1]},b[22+:1]},b[23+:1]},b[24+:1]},b[25+:1]},b[26+:1]},\
            b[27+:1]},b[28+:1]},b[29+:1]},b[30+:1]},b[31+:1]}"
            .as_slice(),
    )
}

/// The low byte of b as a signed number.
fn byte() -> CircuitText
    ensures { IsTextOf result (plain (extended_word 8)) }
{
    of_word(b"{(b[7+:1])?(24'd16777215):24'd0,b[0+:8]}".as_slice())
}

/// The low half of b as a signed number.
fn half() -> CircuitText
    ensures { IsTextOf result (plain (extended_word 16)) }
{
    of_word(b"{(b[15+:1])?(16'd65535):16'd0,b[0+:16]}".as_slice())
}

/// The lesser number.
fn lesser() -> CircuitText
    ensures { IsTextOf result (plain lesser_word) }
{
    of_word(b"(({!(b[31+:1]),b[0+:31]})<({!(a[31+:1]),a[0+:31]}))?(b):a".as_slice())
}

/// The greater number.
fn greater() -> CircuitText
    ensures { IsTextOf result (plain greater_word) }
{
    of_word(b"(({!(a[31+:1]),a[0+:31]})<({!(b[31+:1]),b[0+:31]}))?(b):a".as_slice())
}

impl CircuitUnit for Bits {
    ghost use Rattle.tta_bits.specs.Circuits.{bits_circuit};

    ghost unit_circuit = { λ _. bits_circuit };

    fn make(&self) {}

    fn circuit(&self, i: usize) -> Option<CircuitText> {
        match i {
            0 => Some(turned()),
            1 => Some(zeros()),
            2 => Some(ones()),
            3 => Some(reversed()),
            4 => Some(byte()),
            5 => Some(half()),
            8 => Some(lesser()),
            9 => Some(greater()),
            _ => None,
        }
    }
}
