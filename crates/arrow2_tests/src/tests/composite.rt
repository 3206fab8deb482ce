//! Known bytes and printed texts of native values of several parts.
use super::checks::{has, has_bytes, prints, shows};
use arrow2_composite::{days_ms, i256, months_days_ns};
use arrow2_types::PrimitiveType as Type;

#[test]
fn parts_and_digits_are_written_in_order(rt: HostRuntime) {
    let little = [1, 0, 0, 0, 255, 255, 255, 255];
    let big = [0, 0, 0, 1, 255, 255, 255, 255];
    has_bytes(&rt, days_ms::new(1, -1), Type::DaysMs, &little, &big);
    let little = [1, 0, 0, 0, 2, 0, 0, 0, 3, 0, 0, 0, 0, 0, 0, 0];
    let big = [0, 0, 0, 1, 0, 0, 0, 2, 0, 0, 0, 0, 0, 0, 0, 3];
    let months = months_days_ns::new(1, 2, 3);
    has_bytes(&rt, months, Type::MonthDayNano, &little, &big);
    let (mut little, mut big) = ([0; 32], [0; 32]);
    little[0] = 1;
    big[31] = 1;
    let one = i256::from_words(0, 1);
    has_bytes(&rt, one, Type::Int256, &little, &big);
    little[..16].fill(255);
    big[16..].fill(255);
    let most = i256::from_words(0, -1);
    has_bytes(&rt, most, Type::Int256, &little, &big);
}

#[test]
fn spans_print_their_parts(rt: HostRuntime) {
    let alloc = rt.alloc();
    let (days, months) = (days_ms::new(1, -1), months_days_ns::new(1, 2, 3));
    prints(&rt, alloc, &days, "1d -1ms");
    shows(&rt, alloc, &days, "days_ms(1, -1)");
    prints(&rt, alloc, &days_ms::default(), "0d 0ms");
    prints(&rt, alloc, &months, "1m 2d 3ns");
    shows(&rt, alloc, &months, "months_days_ns(1, 2, 3)");
    let (days, months) = (-days, -months);
    has(&rt, &[days.days(), days.milliseconds()], &[-1, 1]);
    has(&rt, &[months.months(), months.days()], &[-1, -2]);
    has(&rt, &[months.ns()], &[-3]);
}

#[test]
#[tactic(auto, unfolding(arrow2_model::specs::Digits::words_value))]
fn wide_numbers_go_by_value(rt: HostRuntime) {
    let one = i256::from_words(0, 1);
    let less = [one < i256::from_words(0, -1), i256::from_words(-1, 0) < one];
    has(&rt, &less, &[true; 2]);
    let negated = [-i256::from_words(1, 0), -one];
    let wanted = [i256::from_words(-1, 0), i256::from_words(-1, -1)];
    has(&rt, &negated, &wanted);
    has(&rt, &[one == i256::from_words(1, 1)], &[false]);
    let words = [
        i256::default().into_words(),
        i256::from_words(5, -6).into_words(),
    ];
    has(&rt, &words, &[(0, 0), (5, -6)]);
}
