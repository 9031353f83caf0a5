//! Pictures over memory.
use link_pictures::linkdraw::{Form, Lines, Options, Table, draw, draw_keeping_line, run};
use link_scripts::linkrun::Outcome;
use std::alloc::Global;
use std::io;
use std::io::{ErrorKind, Write};
use std::process::Abort;
use std::test::Fail;

/// Draws a script over memory, and looks for parts of what is written, in order.
fn expect(
    rt: &(impl Abort + AllocGlobal),
    script: &str,
    options: &Options,
    outcome: Outcome,
    parts: &[&str],
) {
    let mut output = Vec::new(rt.alloc());
    let found = draw(rt.alloc(), &mut script.as_bytes(), &mut output, options);
    assert_eq!(rt; found, outcome, "{script}");
    let mut text = str::from_utf8(output.as_slice()).unwrap_or("");
    for part in parts {
        match text.split_once(*part) {
            Some((_, after)) => text = after,
            None => assert!(rt; false, "no {part} in what is written of {script}"),
        }
    }
    if parts.is_empty() {
        assert_eq!(rt; output.len(), 0);
    }
}

/// The same for a picture of all.
fn expect_picture(rt: &(impl Abort + AllocGlobal), script: &str, parts: &[&str]) {
    expect(rt, script, &Options::new(rt.alloc()), Outcome::Whole, parts);
}

/// Peer 1 sends 1000 bytes a second: two messages share them for a second, and then one has all.
const SHARED: &str = "limit 0 1 1000 -\nenqueue 0 1 2 7 1000 500000000 1\nenqueue 0 1 3 7 500 0 1\n\
advance 1000000000\nadvance 1500000000\nnext\n";

/// Half of the time, and then twice the rate; the mean of the column between is two thirds.
#[test]
fn a_row_for_each_pair_and_cap(rt: HostRuntime) {
    let script =
        "limit 0 1 1000 -\nenqueue 0 1 2 7 1000 500 1\nenqueue 0 1 3 7 500 0 0\nadvance 1500000000\n";
    let parts = [
        "<svg",
        "Run of a script",
        "2 messages of 2 ordered pairs, 0 s to 1.5 s",
        "time since the start",
        "1 sends: use of its cap",
        "<path class=\"u4\" d=\"M240 ",
        ">1 kB/s</text>",
        "What each peer sends and receives (full height: 1 kB/s)",
        ">1 sends</text>",
        ">2 receives</text>",
        "Messages of each pair (full height: 1 kB/s)",
        "1 → 2: 1 message, 1 kB",
        "M240 665V635H1306V625H1307V604H1839V605H1840V665z",
        "1 → 2, channel 7: 1 kB\nenqueued 0 s, starts 0 s, done 1.5 s, arrives 1.5 s",
        "1 → 3: 1 message, 500 B",
        "done 1 s, dropped",
        "</svg>",
    ];
    expect_picture(&rt, script, &parts);
}

/// A byte a nanosecond: 1601 of 3200 nanoseconds, in columns of two. The 801st is full for a half.
#[test]
fn what_is_full_is_shaded_by_its_part(rt: HostRuntime) {
    let script =
        "limit 0 1 1000000000 -\nenqueue 0 1 2 7 1601 1599 1\nadvance 18446744073709551615\n";
    let parts = [
        "<path class=\"u1\" d=\"\"/>",
        "<path class=\"u2\" d=\"M1040 ",
        "h1v",
        "<path class=\"u3\" d=\"\"/>",
        "<path class=\"u4\" d=\"M240 ",
        "h800v",
    ];
    expect_picture(&rt, script, &parts);
}

/// The message is done after half a second, and nothing else happens up to the last moment.
#[test]
fn time_ends_at_the_last_arrival(rt: HostRuntime) {
    let script =
        "limit 0 1 1000 -\nenqueue 0 1 2 7 500 500000000 1\nadvance 18446744073709551615\n";
    let parts = [
        "<svg",
        "1 message of 1 ordered pair, 0 s to 1 s",
        "M240 665V604H1040V665z",
        "</svg>",
    ];
    expect_picture(&rt, script, &parts);
}

/// No cap lets the message go on after a second: that stands for a quarter of the time before.
#[test]
fn what_stalls_is_hatched_and_shown_for_a_while(rt: HostRuntime) {
    let script = "limit 0 1 1000 -\nenqueue 0 1 2 7 5000 0 1\nlimit 1000000000 1 0 -\n\
advance 18446744073709551615\n";
    let parts = [
        "<svg",
        "0 s to 1.25 s",
        ">changes</text>",
        "M240 665V604H1520V665z",
        "<path class=\"s\" d=\"M1520 665v-61h320v61z\"><title>stalls: a rate of 0",
        "</svg>",
    ];
    expect_picture(&rt, script, &parts);
}

#[test]
fn idle_rows_are_counted(rt: HostRuntime) {
    let script = "limit 0 1 1000 -\nlimit 0 2 5 5\nenqueue 0 1 3 7 500 0 1\nadvance 1000000000\n";
    let parts = ["Left out, since nothing happens there: 2 caps, 0 pairs."];
    expect_picture(&rt, script, &parts);
}

/// A time and a peer of a run.
#[test]
fn options_choose_rows_and_time(rt: HostRuntime) -> Result<(), Fail> {
    let mut options = Options::new(rt.alloc());
    options.title.push_str("a < b")?;
    options.peers.push(3)?;
    options.from = Some(500_000_000);
    options.until = Some(750_000_000);
    let parts = [
        "<title>a &lt; b</title>",
        "500 ms to 750 ms",
        "3 receives",
        "1 → 3: 1 message, 500 B",
        "M240 469V408H1840V469z",
        "</svg>",
    ];
    expect(&rt, SHARED, &options, Outcome::Whole, &parts);
    options.form = Form::Table(Table::Messages, Lines::Csv);
    let line = ["latency_s\n1,3,7,500,0,0.000000000,0,0.000000000,1000000000,1.0"];
    expect(&rt, SHARED, &options, Outcome::Whole, &line);
    Ok(())
}

/// The moments are those that `linkrun` prints of this script.
#[test]
fn a_table_has_each_message(rt: HostRuntime) {
    let mut options = Options::new(rt.alloc());
    options.form = Form::Table(Table::Messages, Lines::Csv);
    let parts = [
        "origin,recipient,channel,bytes,enqueued_ns,enqueued_s,started_ns,started_s,done_ns,done_s,",
        "\n1,2,7,1000,0,0.000000000,0,0.000000000,1500000000,1.500000000,2000000000,2.000000000,0,",
        "2000000000,2.000000000\n",
        "1,3,7,500,0,0.000000000,0,0.000000000,1000000000,1.000000000,1000000000,1.000000000,0,",
        "1000000000,1.000000000\n",
    ];
    expect(&rt, SHARED, &options, Outcome::Whole, &parts);
}

/// Three messages share 1000 bytes a second, and two of them after the first is done.
#[test]
fn a_table_has_each_rate_exactly(rt: HostRuntime) {
    let script = "limit 0 1 1000 -\nenqueue 0 1 2 7 100 0 1\nenqueue 0 1 3 8 1000 0 1\n\
enqueue 0 1 4 9 1000 0 0\nadvance 300000000\n";
    let mut options = Options::new(rt.alloc());
    options.form = Form::Table(Table::Rates, Lines::Csv);
    let rates = [
        "rate,rate_decimal,exact\n",
        "1,2,7,0,0.000000000,300000000,0.300000000,1000/3,333.333333333,1\n",
        "1,3,8,0,0.000000000,300000000,0.300000000,1000/3,333.333333333,1\n",
        "1,4,9,0,0.000000000,300000000,0.300000000,1000/3,333.333333333,1\n",
    ];
    expect(&rt, script, &options, Outcome::Whole, &rates);
    options.form = Form::Table(Table::Caps, Lines::Json);
    let caps = [
        "{\"side\":\"egress\",\"origin\":1,\"recipient\":null,\"from_ns\":0,\"from_s\":0.000000000,",
        "\"to_ns\":300000000,\"to_s\":0.300000000,\"cap\":1000,\"used\":\"1000/1\",",
        "\"used_decimal\":1000.000000000,\"full\":true}\n",
    ];
    expect(&rt, script, &options, Outcome::Whole, &caps);
}

/// Ten messages without a cap arrive after 1 to 10 nanoseconds: the fifth is the one that half of
/// them do not exceed, the ninth nine tenths, and the tenth all.
#[test]
fn a_table_has_quantiles(rt: HostRuntime) {
    let script = "enqueue 0 1 2 7 5 1 1\nenqueue 0 1 3 7 5 4 1\nenqueue 0 1 4 7 5 3 1\n\
enqueue 0 1 5 7 5 2 1\nenqueue 0 1 6 7 5 5 1\nenqueue 0 2 1 8 5 10 1\nenqueue 0 2 3 8 5 6 1\n\
enqueue 0 2 4 8 5 9 1\nenqueue 0 2 5 8 5 8 1\nenqueue 0 2 6 8 5 7 1\nenqueue 0 2 7 8 5 7 0\n\
advance 100\n";
    let mut options = Options::new(rt.alloc());
    options.form = Form::Table(Table::Latencies, Lines::Csv);
    let parts = [
        "channel,count,least_ns,least_s,p50_ns,p50_s,p90_ns,p90_s,p99_ns,p99_s,greatest_ns,",
        "\nall,10,1,0.000000001,5,0.000000005,9,0.000000009,10,0.000000010,10,0.000000010\n",
        "7,5,1,0.000000001,3,0.000000003,5,0.000000005,5,0.000000005,5,0.000000005\n",
        "8,5,6,0.000000006,8,0.000000008,10,0.000000010,10,0.000000010,10,0.000000010\n",
    ];
    expect(&rt, script, &options, Outcome::Whole, &parts);
}

#[test]
fn a_page_has_the_run_and_needs_nothing_else(rt: HostRuntime) -> Result<(), Fail> {
    let mut options = Options::new(rt.alloc());
    options.form = Form::Page;
    options.title.push_str("<script>")?;
    let parts = [
        "<!doctype html>",
        "<h1>&lt;script&gt;</h1>",
        "const D={first:0,last:2000000000,cols:1600,told:true,refused:0,exact:true,caps:[",
        "{k:\"s\",a:\"1\",b:\"1\",v:[0,1000,],u:[0,1200,1000,],f:[0,1200,4,]}",
        "{a:\"1\",b:\"2\",c:0,r:[0,1000000000,500000000,1000000000,1500000000,1000000000,],x:[],",
        "m:[7,1000,0,0,1500000000,2000000000,]}",
        "</html>",
    ];
    expect(&rt, SHARED, &options, Outcome::Whole, &parts);
    Ok(())
}

#[test]
fn a_bad_line_draws_nothing(rt: HostRuntime) {
    let options = Options::new(rt.alloc());
    let script = "limit 0 1 1000 -\nrun 1\n";
    expect(&rt, script, &options, Outcome::BadLine(2), &[]);
    expect(&rt, "weight 1 0\n", &options, Outcome::BadLine(1), &[]);
    expect_picture(&rt, "rates", &["<svg", "0 messages", "</svg>"]);
    let network = "rates\nhop 1 2\ncap 2 5\nweight 1 3\nroutes\n";
    expect_picture(&rt, network, &["<svg", "0 messages", "</svg>"]);
}

/// Draws a script over memory. Answers how it ended, and leaves the line that was read last.
fn draw_over(alloc: Global, script: &str, line: &mut Vec<u8>) -> Outcome {
    let mut output = Vec::new(alloc);
    let options = Options::new(alloc);
    draw_keeping_line(alloc, &mut script.as_bytes(), &mut output, &options, line)
}

#[test]
fn a_bad_line_is_kept(rt: HostRuntime) -> Result<(), Fail> {
    let mut line = Vec::from_slice(rt.alloc(), b"what it held")?;
    let outcome = draw_over(rt.alloc(), "next\n\nlimit 0 1 5 x\nnext\n", &mut line);
    assert_eq!(rt; outcome, Outcome::BadLine(3));
    assert!(rt; line.as_slice() == b"limit 0 1 5 x".as_slice());
    let outcome = draw_over(rt.alloc(), "next\nnex", &mut line);
    assert_eq!(rt; outcome, Outcome::BadLine(2));
    assert!(rt; line.as_slice() == b"nex".as_slice());
    Ok(())
}

/// A writer that is full.
#[derive(Drop)]
struct Full;

impl Write for Full {
    fn write(&mut self, _buffer: &[u8]) -> io::Result<usize> {
        Err(io::Error::from(ErrorKind::StorageFull))
    }

    fn flush(&mut self) -> io::Result<()> {
        Ok(())
    }
}

#[test]
fn a_write_that_fails_is_told(rt: HostRuntime) {
    let outcome = run(rt.alloc(), &mut "next\n".as_bytes(), &mut Full);
    assert_eq!(rt; outcome, Outcome::InputOutput);
}
