ghost use Rattle.std.specs.Prelude.{◌≡◌};
ghost use Rattle.felm_term.specs.Operators.{apply_op, quotient, remainder, truth};
ghost use Rattle.felm_term.specs.declared.op.Op.TheVariants as op;

/// A binary operator on integers.
#[derive(Clone, Copy, Debug, PartialEq, Eq)]
pub enum Op {
    Add,
    Sub,
    Mul,
    Div,
    Rem,
    Eq,
    Ne,
    Lt,
    Le,
    Gt,
    Ge,
    And,
    Or,
}

/// The number that an operator gives. Sums, differences and products wrap.
pub fn apply_op(op: Op, left: i64, right: i64) -> i64
    ensures { result ≡ apply_op op left right }
{
    match op {
        Op::Add => left.wrapping_add(right),
        Op::Sub => left.wrapping_sub(right),
        Op::Mul => left.wrapping_mul(right),
        Op::Div => quotient(left, right),
        Op::Rem => remainder(left, right),
        Op::Eq => truth(left == right),
        Op::Ne => truth(left != right),
        Op::Lt => truth(left < right),
        Op::Le => truth(left <= right),
        Op::Gt => truth(left > right),
        Op::Ge => truth(left >= right),
        Op::And => truth(left != 0 && right != 0),
        Op::Or => truth(left != 0 || right != 0),
    }
}

fn quotient(left: i64, right: i64) -> i64
    ensures { result ≡ quotient left right }
{
    if right == 0 {
        0
    } else {
        left.wrapping_div(right)
    }
}

fn remainder(left: i64, right: i64) -> i64
    ensures { result ≡ remainder left right }
{
    if right == 0 {
        0
    } else {
        left.wrapping_rem(right)
    }
}

fn truth(holds: bool) -> i64
    ensures { result ≡ truth holds }
{
    i64::from(holds)
}
