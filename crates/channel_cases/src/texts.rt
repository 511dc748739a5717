// Row texts: each is taken, or refused with a number and a place.
use model::Model;
use rows::row_model::RowModel;
use rowtext::fault::RowFault;
use std::alloc::{AllocError, Global};
use std::test::Fail;

// By number and place and not by the fault, so that `number` and `place` are tried too.
struct Refused {
    text: &'static str,
    number: u8,
    place: usize,
}

const REFUSED: [Refused; 38] = [
    Refused {
        text: "",
        number: 16,
        place: 0,
    },
    Refused {
        text: "*>0",
        number: 16,
        place: 0,
    },
    Refused {
        text: "*>0\n-a>0",
        number: 16,
        place: 0,
    },
    Refused {
        text: "x",
        number: 16,
        place: 0,
    },
    Refused {
        text: "\n",
        number: 17,
        place: 0,
    },
    Refused {
        text: "x>0\n",
        number: 17,
        place: 0,
    },
    Refused {
        text: " *>0\n",
        number: 17,
        place: 0,
    },
    Refused {
        text: "*>0\n\n",
        number: 17,
        place: 4,
    },
    Refused {
        text: "*>0\n>0\n",
        number: 17,
        place: 4,
    },
    Refused {
        text: "*>9\nx>0\n",
        number: 17,
        place: 4,
    },
    Refused {
        text: "*\n",
        number: 18,
        place: 1,
    },
    Refused {
        text: "*a\n",
        number: 18,
        place: 2,
    },
    Refused {
        text: "*ab\n",
        number: 18,
        place: 3,
    },
    Refused {
        text: "*ba>0\n",
        number: 18,
        place: 2,
    },
    Refused {
        text: "*aa>0\n",
        number: 18,
        place: 2,
    },
    Refused {
        text: "*A>0\n",
        number: 18,
        place: 1,
    },
    Refused {
        text: "*a{>0\n",
        number: 18,
        place: 2,
    },
    Refused {
        text: "*`>0\n",
        number: 18,
        place: 1,
    },
    Refused {
        text: "*a 0\n",
        number: 18,
        place: 2,
    },
    Refused {
        text: "**>0\n",
        number: 18,
        place: 1,
    },
    Refused {
        text: "*>\n",
        number: 19,
        place: 2,
    },
    Refused {
        text: "*>,0\n",
        number: 19,
        place: 2,
    },
    Refused {
        text: "*>0,\n",
        number: 19,
        place: 4,
    },
    Refused {
        text: "*>0,,1\n",
        number: 19,
        place: 4,
    },
    Refused {
        text: "*>00\n",
        number: 19,
        place: 2,
    },
    Refused {
        text: "*>007\n",
        number: 19,
        place: 2,
    },
    Refused {
        text: "*>64\n",
        number: 19,
        place: 2,
    },
    Refused {
        text: "*>99999999999999999999999999999999999999999999999999\n",
        number: 19,
        place: 2,
    },
    Refused {
        text: "*>5 \n",
        number: 19,
        place: 2,
    },
    Refused {
        text: "*>>0\n",
        number: 19,
        place: 2,
    },
    Refused {
        text: "*>-1\n",
        number: 19,
        place: 2,
    },
    Refused {
        text: "*>0,0\n",
        number: 19,
        place: 4,
    },
    Refused {
        text: "*>0\n-b>2,1\n",
        number: 19,
        place: 9,
    },
    Refused {
        text: "*>63\n-b>64\n",
        number: 19,
        place: 8,
    },
    Refused {
        text: "*>1\n",
        number: 20,
        place: 2,
    },
    Refused {
        text: "*>63\n",
        number: 20,
        place: 2,
    },
    Refused {
        text: "*>0,1\n-b>0,2\n",
        number: 20,
        place: 11,
    },
    Refused {
        text: "*>0,5,9\n-b>7\n",
        number: 20,
        place: 4,
    },
];

// The number and the place that a text is refused with, if it is. As in rule_cases, of another fault: a trait for
// `number` and `place` would serve these two functions alone.
fn answer(heap: Global, text: &[u8]) -> Result<Option<(u8, usize)>, Fail> {
    let mut table = RowModel::new(heap)?;
    match table.fill(heap, text) {
        Ok(()) => Ok(None),
        Err(e) => Ok(Some((e.number().ok_or("no memory")?, e.place()))),
    }
}

// So many lines, each with the last of them for its target.
fn lines(heap: Global, count: usize) -> Result<String, AllocError> {
    let last = count.saturating_sub(1);
    format!(in heap; "-az>{last}\n")?.repeat(heap, count)
}

#[test]
fn each_broken_text_has_its_number_and_place(rt: HostRuntime) -> Result<(), Fail> {
    for case in REFUSED.iter() {
        let got = answer(rt.alloc(), case.text.as_bytes())?;
        assert_eq!(rt; got, Some((case.number, case.place)), "{}", case.text);
    }
    Ok(())
}

#[test]
fn sixty_four_lines_are_taken_and_sixty_five_are_not(rt: HostRuntime) -> Result<(), Fail> {
    let heap = rt.alloc();
    assert_eq!(rt; answer(heap, lines(heap, 64)?.as_bytes())?, None);
    assert_eq!(rt; answer(heap, lines(heap, 65)?.as_bytes())?, Some((16, 0)));
    Ok(())
}

#[test]
fn a_new_model_rests_in_one_start(rt: HostRuntime) -> Result<(), Fail> {
    let table = RowModel::new(rt.alloc())?;
    assert_eq!(rt; table.count(), 1);
    assert!(rt; table.starts(0) && table.moves(0, 0));
    assert!(rt; !table.carries(0, b'a') && !table.starts(1) && !table.moves(0, 1));
    Ok(())
}

#[test]
fn a_filled_model_answers_as_its_text_says(rt: HostRuntime) -> Result<(), Fail> {
    let mut table = RowModel::new(rt.alloc())?;
    assert!(rt;
        table
            .fill(rt.alloc(), b"*n>1\n-c>2\n-o>0,3\n-f>0\n")
            .is_ok()
    );
    assert_eq!(rt; table.count(), 4);
    assert!(rt; table.starts(0) && !table.starts(1) && !table.starts(4) && !table.starts(65535));
    assert!(rt; table.moves(2, 0) && table.moves(2, 3) && !table.moves(2, 1) && !table.moves(2, 4));
    assert!(rt; table.carries(1, b'c') && !table.carries(1, b'n') && !table.carries(4, b'n'));
    assert!(rt; !table.carries(0, b'`') && !table.carries(0, b'{') && !table.carries(0, 0));
    Ok(())
}

#[test]
fn a_refused_fill_leaves_the_model(rt: HostRuntime) -> Result<(), Fail> {
    let mut table = RowModel::new(rt.alloc())?;
    assert!(rt; table.fill(rt.alloc(), b"-a>1\n*b>0\n").is_ok());
    assert_eq!(rt;
        table.fill(rt.alloc(), b"*>0\n-b>2\n"),
        Err(RowFault::Beyond(7))
    );
    assert_eq!(rt; table.count(), 2);
    assert!(rt; table.starts(1) && !table.starts(0) && table.carries(0, b'a') && table.moves(1, 0));
    Ok(())
}
