// A report's bytes from its head and its parts: what `report` decodes, the other way round.
#![tactic(auto)]

ghost use Rattle.std.specs.Prelude.{◌≡◌};
ghost use Rattle.report.specs.Encoded.{encode_head, encode_part};

use report::{Head, Part};

// A head with its mark and zeros.
#[tactic(auto, using(crate::proofs::Puts::head_put))]
pub fn head_bytes(h: Head) -> [u8; 48]
    ensures { result ≡ encode_head h }
{
    let mut head = [0u8; 48];
    fields::put_u16(&mut head, 0, 0x5052);
    fields::put_u16(&mut head, 2, h.unit);
    fields::put_u16(&mut head, 4, h.owner);
    let codes = [
        h.record_type.0,
        h.operation.0,
        h.direction.0,
        h.start_mark.0,
        h.end_mark.0,
        h.qualification,
    ];
    fields::put_bytes(&mut head, 6, &codes);
    fields::put_u16(&mut head, 12, h.ordinal);
    fields::put_u16(&mut head, 14, h.part_count);
    fields::put_bytes(&mut head, 16, &h.identifier);
    quantities::put_minute(&mut head, 32, h.stamp);
    quantities::put_minute(&mut head, 36, h.period.start);
    quantities::put_minute(&mut head, 40, h.period.end);
    fields::put_u16(&mut head, 44, h.text_length);
    fields::put_u16(&mut head, 46, 0);
    head
}

// A part with its mark and zeros.
#[tactic(auto, using(crate::proofs::Puts::part_put))]
pub fn part_bytes(p: Part) -> [u8; 16]
    ensures { result ≡ encode_part p }
{
    let mut part = [0u8; 16];
    fields::put_u16(&mut part, 0, 0x4B50);
    fields::put_u16(&mut part, 2, 0);
    quantities::put_minute(&mut part, 4, p.period.start);
    quantities::put_minute(&mut part, 8, p.period.end);
    fields::put_u32(&mut part, 12, p.power.0.cast_unsigned());
    part
}
