// Lays a figure out in the 48 octets that `types_parts` takes it from. Numbers lie low octet first.
#![tactic(auto)]

ghost use Rattle.std.specs.Prelude.{◌≡◌};
ghost use Rattle.types.specs.Stored.{figure_in};

use types::Figure;

// The 48 octets that a figure lies in, one by one: with copies into parts of the array the proof did not close.
pub fn octets_of(f: Figure) -> [u8; 48]
    ensures { figure_in result ≡ f }
{
    let m = f.money;
    let c = m.currency;
    let a = f.association;
    let o = c.octets;
    let d = a.digits;
    let n = m.number.to_le_bytes();
    let i = a.id.to_le_bytes();
    let k = a.count.to_le_bytes();
    [
        c.count,
        o[0],
        o[1],
        o[2],
        o[3],
        o[4],
        o[5],
        o[6],
        o[7],
        o[8],
        o[9],
        m.multiplier,
        n[0],
        n[1],
        n[2],
        n[3],
        i[0],
        i[1],
        k[0],
        k[1],
        a.kind,
        a.plan,
        d[0],
        d[1],
        d[2],
        d[3],
        d[4],
        d[5],
        d[6],
        d[7],
        d[8],
        d[9],
        d[10],
        d[11],
        d[12],
        d[13],
        d[14],
        d[15],
        d[16],
        d[17],
        d[18],
        d[19],
        f.kind,
        f.total,
        f.billed,
        f.billing,
        f.arrangement,
        f.count,
    ]
}
