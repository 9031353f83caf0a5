//! That calls succeed, and that they answer what going through all the moments does.
use crate::same::same;
use least_moment::Moments;
use std::alloc::AllocError;
use std::process::Abort;

/// The least of some moments, by going through them.
fn least_through(moments: &[Option<u64>]) -> Option<u64> {
    let mut least = None;
    for moment in moments {
        if let Some(moment) = *moment {
            match least {
                Some(before) if before <= moment => {}
                _ => least = Some(moment),
            }
        }
    }
    least
}

/// The first place from that one on whose moment has come by a time, by going through them.
fn next_through(moments: &[Option<u64>], from: usize, time: u64) -> Option<usize> {
    for at in from..moments.len() {
        if let Some(moment) = moments[at] {
            if moment <= time {
                return Some(at);
            }
        }
    }
    None
}

/// The first place of the least moment.
fn first_place(moments: &Moments) -> Option<usize> {
    moments.next_due(0, moments.least()?)
}

/// Both answer alike.
fn compare(rt: &impl Abort, moments: &Moments, plain: &[Option<u64>], from: usize, time: u64) {
    same(rt, &moments.len(), &plain.len());
    same(rt, &moments.is_empty(), &plain.is_empty());
    let least = least_through(plain);
    same(rt, &moments.least(), &least);
    let place = match least {
        Some(least) => next_through(plain, 0, least),
        None => None,
    };
    same(rt, &first_place(moments), &place);
    same(
        rt,
        &moments.next_due(from, time),
        &next_through(plain, from, time),
    );
    if from < moments.len() {
        same(rt, &Some(moments.get(from)), &plain.get(from).copied());
    }
}

/// The next of some numbers that look drawn by lot.
fn draw(state: &mut u64) -> u64 {
    *state = state
        .wrapping_mul(6364136223846793005)
        .wrapping_add(1442695040888963407);
    *state >> 33
}

/// A moment, or none, or the last one that there is.
fn drawn_moment(state: &mut u64) -> Option<u64> {
    match draw(state) % 8 {
        0 | 1 => None,
        2 => Some(u64::MAX),
        _ => Some(draw(state) % 100),
    }
}

/// The least of the moments is this one, first at that place.
fn expect_least(rt: &impl Abort, moments: &Moments, least: Option<u64>, place: Option<usize>) {
    same(rt, &moments.least(), &least);
    same(rt, &first_place(moments), &place);
}

/// In each row: from a place on, up to a time, the first place that is due.
fn expect_due(rt: &impl Abort, moments: &Moments, rows: &[(usize, u64, Option<usize>)]) {
    for (from, time, place) in rows {
        same(rt, &moments.next_due(*from, *time), place);
    }
}

/// Adds seven moments.
fn push_seven(moments: &mut Moments) -> Result<(), AllocError> {
    for moment in [
        None,
        Some(u64::MAX),
        Some(7),
        None,
        Some(3),
        Some(7),
        Some(3),
    ] {
        moments.push(moment)?;
    }
    Ok(())
}

fn expect_seven(rt: &impl Abort, moments: &Moments) {
    same(rt, &moments.len(), &7);
    expect_least(rt, moments, Some(3), Some(4));
    expect_due(
        rt,
        moments,
        &[
            (0, 7, Some(2)),
            (3, 7, Some(4)),
            (5, 7, Some(5)),
            (6, 7, Some(6)),
            (7, 7, None),
            (0, u64::MAX, Some(1)),
            (0, 2, None),
        ],
    );
}

/// The moment at that place changes, if there is one.
fn set(moments: &mut Moments, at: usize, moment: Option<u64>) {
    if at < moments.len() {
        moments.set(at, moment);
    }
}

/// The last of the moments is this one.
fn expect_last(rt: &impl Abort, moments: &Moments, last: Option<u64>) {
    assert!(rt; !moments.is_empty());
    if !moments.is_empty() {
        same(rt, &moments.get(moments.len() - 1), &last);
    }
}

/// Of the seven one is given up, then the last, then all but two, and then these.
fn expect_fewer(rt: &impl Abort, moments: &mut Moments) {
    set(moments, 4, None);
    expect_least(rt, moments, Some(3), Some(6));
    moments.truncate(6);
    expect_least(rt, moments, Some(7), Some(2));
    moments.truncate(2);
    expect_least(rt, moments, Some(u64::MAX), Some(1));
    expect_last(rt, moments, Some(u64::MAX));
    set(moments, 1, None);
    expect_least(rt, moments, None, None);
    expect_due(rt, moments, &[(0, u64::MAX, None)]);
}

#[test]
fn few_moments(rt: HostRuntime) -> Result<(), AllocError> {
    let mut moments = Moments::new(rt.alloc());
    expect_least(&rt, &moments, None, None);
    expect_due(&rt, &moments, &[(0, u64::MAX, None)]);
    push_seven(&mut moments)?;
    expect_seven(&rt, &moments);
    expect_fewer(&rt, &mut moments);
    Ok(())
}

/// A moment is added or changes, or all from a place on go, and so in a plain list.
fn change(
    moments: &mut Moments,
    plain: &mut Vec<Option<u64>>,
    at: usize,
    chosen: u64,
    moment: Option<u64>,
) -> Result<(), AllocError> {
    if chosen == 0 {
        moments.truncate(at % 80);
        plain.truncate(at % 80);
    } else if chosen < 32 {
        moments.push(moment)?;
        plain.push(moment)?;
    } else if plain.len() > 0 {
        let place = at % plain.len();
        set(moments, place, moment);
        plain[place] = moment;
    }
    Ok(())
}

/// Five thousand changes that look drawn by lot.
fn change_often(
    rt: &impl Abort,
    moments: &mut Moments,
    plain: &mut Vec<Option<u64>>,
) -> Result<(), AllocError> {
    let mut state = 1;
    for _ in 0..5000 {
        let moment = drawn_moment(&mut state);
        let at = draw(&mut state) as usize;
        let chosen = draw(&mut state) % 64;
        change(moments, plain, at, chosen, moment)?;
        let time = draw(&mut state) % 100;
        compare(rt, moments, plain.as_slice(), at % 100, time);
    }
    Ok(())
}

#[test]
fn many_changes(rt: HostRuntime) -> Result<(), AllocError> {
    let mut moments = Moments::new(rt.alloc());
    let mut plain = Vec::new(rt.alloc());
    change_often(&rt, &mut moments, &mut plain)
}

/// Adds a moment, twice if memory is refused once.
fn push_again(rt: &impl Abort, moments: &mut Moments, moment: u64) -> Result<(), AllocError> {
    let before = moments.len();
    if moments.push(Some(moment)).is_err() {
        same(rt, &moments.len(), &before);
        moments.push(Some(moment))?;
    }
    Ok(())
}

fn push_forty(rt: &impl Abort, moments: &mut Moments) -> Result<(), AllocError> {
    for moment in 0..40 {
        push_again(rt, moments, 100 - moment)?;
    }
    Ok(())
}

#[test]
fn refused_memory_changes_nothing(rt: HostRuntime) -> Result<(), AllocError> {
    let mut moments = Moments::new(rt.alloc());
    push_forty(&rt, &mut moments)?;
    same(&rt, &moments.len(), &40);
    same(&rt, &first_place(&moments), &Some(39));
    Ok(())
}
