ghost use Rattle.std.specs.Prelude.{◌≡◌, true, ◌+◌, ◌*◌, ◌%◌, ◌<◌, ◌≤◌, ◌↔◌, IfSome, IsNone};
ghost use Rattle.std.specs.Int.{IsPowerOfTwo};
ghost use Rattle.flat_model.specs.Cover.{exponent_of, group_pair};
ghost use Rattle.flat_model.specs.Decision.{is_region};

use flat_model::Pair;

/// Attributes of pages: they are read and written, and never executed.
const PAGES: u32 = 0x1300_0001;

fn exponent_of_page(page: u32) -> u32
    requires least { 32 ≤ page }
    requires most { page ≤ 65536 }
    ensures exact { result ≡ exponent_of page }
    ensures small { result ≤ 16 }
{
    31 - page.leading_zeros()
}

/// One region over eight pages from `base` on. Those without a bit in the mask are disabled.
pub fn group(base: u32, page: u32, mask: u8) -> Option<Pair>
    requires power { IsPowerOfTwo page }
    requires least { 32 ≤ page }
    requires most { page ≤ 65536 }
    requires base { base % (8 * page) ≡ 0 }

    ensures none { IsNone result ↔ (mask ≡ 0) }
    ensures exact { IfSome result (λ p. p ≡ group_pair base page mask) }
    ensures valid { IfSome result (λ p. is_region p ≡ true) }
{
    if mask == 0 {
        return None;
    }
    let size = 2 * (exponent_of_page(page) + 2);
    let disabled = u32::from(255 - mask) << 8;
    Some(Pair {
        rbar: base,
        rasr: PAGES + size + disabled,
    })
}
