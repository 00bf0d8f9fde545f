// Examples 10 to 12: a queue of 5, 3 and 2 lots, shared.
use policy::{Favour, Policy, PriceTime, ProRata};

pub fn tried() -> [bool; 3] {
    let favour = Favour {
        cap: 2,
        minimum: 5,
        below: ProRata,
    };
    [
        shares(&PriceTime, 6, [5, 1, 0]),
        shares(&ProRata, 4, [2, 2, 0]),
        shares(&favour, 4, [3, 1, 0]),
    ]
}

fn shares<P: Policy>(policy: &P, lots: u32, wanted: [u32; 3]) -> bool {
    let mut shares = [0; 3];
    policy.share(&[5, 3, 2], lots, &mut shares).is_ok() && shares == wanted
}
