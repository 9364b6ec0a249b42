// Arithmetic on millionths.
ghost use Rattle.tree_model.specs.Numbers.{in_range, sum_of, difference_of, product_of, quotient_of, whole_quotient_of, remainder_of, rounded, floor_of};
ghost use Rattle.tree_model.specs.Outcomes.{IsAnswer};
ghost use Rattle.std.specs.Prelude.{◌≢◌, ◌≡◌, pos, ◌*ℤ◌, int_div};

use tree_model::{Code, Num};

// The first absolute value in millionths that is out of range.
const LIMIT: u128 = 1_000_000_000_000_000_000;

// So many millionths, where they are in range.
fn ranged(millionths: i128) -> Result<Num, Code>
    ensures { IsAnswer (in_range millionths) result }
{
    if millionths.unsigned_abs() < LIMIT {
        Ok(Num(millionths as i64))
    } else {
        Err(Code::FOAR0002)
    }
}

/// The sum (XQuery 1.0 and XPath 2.0 Functions and Operators, section 6.2.1). `FOAR0002` where it is out of range.
#[tactic(auto, using(crate::proofs::Casts::sum_cast))]
pub fn add(a: Num, b: Num) -> Result<Num, Code>
    ensures { IsAnswer (sum_of a b) result }
{
    ranged((a.0 + b.0) as i128)
}

/// The difference (section 6.2.2). `FOAR0002` where it is out of range.
#[tactic(auto, using(crate::proofs::Casts::difference_cast))]
pub fn sub(a: Num, b: Num) -> Result<Num, Code>
    ensures { IsAnswer (difference_of a b) result }
{
    ranged((a.0 - b.0) as i128)
}

/// The product, cut toward zero behind the sixth digit (section 6.2.3). `FOAR0002` where it is out of range.
#[tactic(auto, using(crate::proofs::Casts::product_cast))]
pub fn mul(a: Num, b: Num) -> Result<Num, Code>
    ensures { IsAnswer (product_of a b) result }
{
    ranged(a.0 as i128 * b.0 as i128 / 1_000_000)
}

// The quotient by what isn't zero.
#[tactic(auto, using(crate::proofs::Casts::quotient_cast))]
fn quotient(a: Num, b: Num) -> Result<Num, Code>
    requires { b ≢ pos 0 }
    ensures { IsAnswer (in_range (int_div (a *ℤ pos 1000000) b)) result }
{
    ranged(a.0 as i128 * 1_000_000 / b.0 as i128)
}

/// The quotient, cut toward zero behind the sixth digit (section 6.2.4). `FOAR0001` where the divisor is zero, and
/// `FOAR0002` where the quotient is out of range.
pub fn div(a: Num, b: Num) -> Result<Num, Code>
    ensures { IsAnswer (quotient_of a b) result }
{
    if b.0 == 0 {
        return Err(Code::FOAR0001);
    }
    quotient(a, b)
}

// The whole quotient by what isn't zero.
#[tactic(auto, using(crate::proofs::Casts::whole_quotient_cast))]
fn whole_quotient(a: Num, b: Num) -> Result<Num, Code>
    requires { b ≢ pos 0 }
    ensures { IsAnswer (in_range (int_div a b *ℤ pos 1000000)) result }
{
    ranged((a.0 / b.0) as i128 * 1_000_000)
}

/// The quotient, cut toward zero to a whole number (section 6.2.5). `FOAR0001` where the divisor is zero, and `FOAR0002`
/// where the quotient is out of range.
pub fn idiv(a: Num, b: Num) -> Result<Num, Code>
    ensures { IsAnswer (whole_quotient_of a b) result }
{
    if b.0 == 0 {
        return Err(Code::FOAR0001);
    }
    whole_quotient(a, b)
}

/// What is left of `a` behind its whole quotient by `b`, with the sign of `a` (section 6.2.6). `FOAR0001` where `b` is zero.
pub fn modulo(a: Num, b: Num) -> Result<Num, Code>
    ensures { IsAnswer (remainder_of a b) result }
{
    if b.0 == 0 {
        return Err(Code::FOAR0001);
    }
    Ok(Num(a.0 % b.0))
}

// The greatest whole number that isn't above so many millionths.
fn floor(millionths: i64) -> i64
    ensures { result ≡ floor_of millionths 1000000 }
{
    if millionths < 0 {
        -1 - (-1 - millionths) / 1_000_000
    } else {
        millionths / 1_000_000
    }
}

/// The nearest whole number, of two the upper one (section 6.4.4). `FOAR0002` where it is out of range.
pub fn round(a: Num) -> Result<Num, Code>
    ensures { IsAnswer (rounded a) result }
{
    ranged(floor(a.0 + 500_000) as i128 * 1_000_000)
}
