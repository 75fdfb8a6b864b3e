use crate::stages::{naming_refusal, scripted};
use crate::tests::fixtures::{
    Gates, Sketch, boxes_of, devices_of, gates_of, has_few_threads, small_board,
};
use flat_model::{ConfigErr, Refused, Spot};
use std::alloc::Global;
use std::process::Abort;
use std::test::Fail;

// A box with these lines.
fn lined<'a>(lines: &'a [u8]) -> Sketch<'a> {
    Sketch {
        size: 256,
        grants: &[],
        lines,
        program: "halt",
    }
}

// A box with this program.
fn programmed<'a>(program: &'a str) -> Sketch<'a> {
    Sketch {
        size: 256,
        grants: &[],
        lines: &[5],
        program,
    }
}

// What is refused of the lines and gateways of these boxes.
fn check_names(
    rt: &impl Abort,
    alloc: Global,
    what: &str,
    sketches: &[Sketch],
    gates: Gates,
    want: Option<Refused>,
) -> Result<(), Fail> {
    let board = small_board(alloc, None);
    let boxes = boxes_of(alloc, sketches)?;
    let gates = gates_of(alloc, &gates)?;
    assert!(rt; boxes.len() <= 8, "few boxes: {what}");
    assert_eq!(rt;
        naming_refusal(&board, boxes.as_slice(), &gates),
        want,
        "{what}"
    );
    Ok(())
}

#[test]
fn a_line_belongs_to_one_box(rt: HostRuntime) -> Result<(), Fail> {
    let none = Gates {
        registers: &[],
        gateways: &[],
    };
    let taken = |at_box, irq| Some(Refused::LineTaken { at_box, irq });
    check_names(
        &rt,
        rt.alloc(),
        "three lines",
        &[lined(&[5, 6]), lined(&[7])],
        none,
        None,
    )?;
    check_names(
        &rt,
        rt.alloc(),
        "a box that names a line twice",
        &[lined(&[5, 5])],
        none,
        taken(0, 1),
    )?;
    let three = [lined(&[0]), lined(&[1]), lined(&[63, 0])];
    check_names(
        &rt,
        rt.alloc(),
        "a line of an earlier box",
        &three,
        none,
        taken(2, 1),
    )?;
    check_names(
        &rt,
        rt.alloc(),
        "the first line of a box",
        &[lined(&[9]), lined(&[9])],
        none,
        taken(1, 0),
    )
}

// The refusal of a register.
fn bad_register(k: u32) -> Option<Refused> {
    Some(Refused::BadGateway {
        spot: Spot::Register(k),
    })
}

// The refusal of a gateway.
fn bad_gateway(k: u32) -> Option<Refused> {
    Some(Refused::BadGateway {
        spot: Spot::Gateway(k),
    })
}

#[test]
fn a_register_lies_in_the_peripherals_and_names_boxes(rt: HostRuntime) -> Result<(), Fail> {
    let two = [lined(&[]), lined(&[])];
    let cases: [(&str, &[(u32, &[&str])], Option<Refused>); 4] = [
        (
            "registers that are good",
            &[(0x40000100, &["b", "a", "a"]), (0x400FFFFC, &[])],
            None,
        ),
        ("no multiple of 4", &[(0x40000102, &["a"])], bad_register(0)),
        (
            "a later one behind the peripherals",
            &[(0x40000100, &["a"]), (0x40100000, &["a"])],
            bad_register(1),
        ),
        (
            "a box that is not there",
            &[(0x40000100, &["a", "c"])],
            bad_register(0),
        ),
    ];
    for (what, registers, want) in cases {
        let gates = Gates {
            registers,
            gateways: &[("b", &["a", "b"])],
        };
        check_names(&rt, rt.alloc(), what, &two, gates, want)?;
    }
    Ok(())
}

#[test]
fn a_gateway_names_boxes_that_are_there(rt: HostRuntime) -> Result<(), Fail> {
    let two = [lined(&[]), lined(&[])];
    let cases: [(&str, &[(&str, &[&str])], Option<Refused>); 3] = [
        (
            "a caller that is no box",
            &[("a", &["b"]), ("b", &["a", "ab"])],
            bad_gateway(1),
        ),
        (
            "a target that is no box",
            &[("c", &["a"])],
            Some(Refused::NoServer { gateway: 0 }),
        ),
        (
            "a later target that is no box",
            &[("b", &[]), ("", &["a"])],
            Some(Refused::NoServer { gateway: 1 }),
        ),
    ];
    for (what, gateways, want) in cases {
        let gates = Gates {
            registers: &[],
            gateways,
        };
        check_names(&rt, rt.alloc(), what, &two, gates, want)?;
    }
    Ok(())
}

#[test]
fn a_caller_and_a_register_come_before_a_target(rt: HostRuntime) -> Result<(), Fail> {
    let two = [lined(&[]), lined(&[])];
    let caller = Gates {
        registers: &[],
        gateways: &[("c", &["c"])],
    };
    check_names(&rt, rt.alloc(), "a caller", &two, caller, bad_gateway(0))?;
    let register = Gates {
        registers: &[(0x40000100, &["a"]), (3, &[])],
        gateways: &[("c", &["a"])],
    };
    check_names(
        &rt,
        rt.alloc(),
        "a register",
        &two,
        register,
        bad_register(1),
    )
}

// What is refused of the programs of these boxes, of devices and of a script.
fn check_runs(
    rt: &impl Abort,
    alloc: Global,
    what: &str,
    sketches: &[Sketch],
    devices: &[&[u8]],
    words: &[&str],
    want: Option<Refused>,
) -> Result<(), Fail> {
    let boxes = boxes_of(alloc, sketches)?;
    let devices = devices_of(alloc, devices)?;
    assert!(rt; boxes.len() <= 8, "few boxes: {what}");
    assert!(rt; has_few_threads(boxes.as_slice()), "few threads: {what}");
    let found = match scripted(alloc, boxes.as_slice(), devices.as_slice(), words) {
        Ok(_) => None,
        Err(ConfigErr::Refused(refused)) => Some(refused),
        Err(ConfigErr::Memory) => Some(Refused::TooLong),
    };
    assert_eq!(rt; found, want, "{what}");
    Ok(())
}

#[test]
fn a_bad_program_is_refused_at_its_line(rt: HostRuntime) -> Result<(), Fail> {
    let good = lined(&[9]);
    let program = |at_box, line| Some(Refused::BadProgram {
        at_box,
        thread: 0,
        line,
    });
    check_runs(
        &rt,
        rt.alloc(),
        "all is good",
        &[good, lined(&[5])],
        &[&[9, 5]],
        &["b.0", "ring 5", "a.0"],
        None,
    )?;
    check_runs(
        &rt,
        rt.alloc(),
        "the first program",
        &[programmed("halt\nfly"), good],
        &[&[1]],
        &["c"],
        program(0, 2),
    )?;
    check_runs(
        &rt,
        rt.alloc(),
        "a later program",
        &[good, programmed("set r9 1")],
        &[],
        &[],
        program(1, 1),
    )
}

#[test]
fn a_device_rings_lines_that_boxes_own(rt: HostRuntime) -> Result<(), Fail> {
    let good = lined(&[9]);
    let device = |device| Some(Refused::BadDevice { device });
    check_runs(
        &rt,
        rt.alloc(),
        "the first device",
        &[good],
        &[&[9, 8]],
        &["x"],
        device(0),
    )?;
    check_runs(
        &rt,
        rt.alloc(),
        "a later device",
        &[good],
        &[&[9], &[], &[9, 63]],
        &[],
        device(2),
    )
}

#[test]
fn a_script_names_threads_and_lines_by_their_one_spelling(rt: HostRuntime) -> Result<(), Fail> {
    let good = [lined(&[9])];
    let cases: [(&str, &[&str], u32); 5] = [
        ("a line that no box owns", &["ring 8"], 0),
        ("a thread that is not there", &["a.0", "a.1"], 1),
        ("a leading zero", &["a.0", "ring 9", "ring 09"], 2),
        ("two spaces", &["ring  9"], 0),
        ("a name alone", &["a.0", "a"], 1),
    ];
    for (what, words, at) in cases {
        let want = Some(Refused::BadScript { at });
        check_runs(&rt, rt.alloc(), what, &good, &[], words, want)?;
    }
    Ok(())
}
