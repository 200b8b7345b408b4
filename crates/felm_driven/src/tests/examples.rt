//! The programs of examples/ and their scripts, without comments and empty lines.

/// A program and a script.
pub type Example = (&'static str, &'static str);

pub const EXAMPLES: [Example; 12] = [
    AVERAGE, COUNTER, CROSSING, ECHO, INVENTORY, PIPELINE, PLAYER, SEARCH, SENSORS, SMOOTHING,
    VALIDATION, WINDOW,
];

const AVERAGE: Example = (
    "\
     input reading : int = 0\n\
     main =\n\
     let sum = foldp (\\new:int.\\sum:int. sum + new) 0 reading in\n\
     let count = foldp (\\new:int.\\count:int. count + 1) 0 reading in\n\
     lift2 (\\total:int.\\readings:int. 10 * total // readings) sum count\n\
     ",
    "reading 20\nreading 22\nreading 21\nreading 30\nreading -3\nreading 0\nreading 25\nreading 25",
);

const COUNTER: Example = (
    "\
     input plus : unit = ()\n\
     input minus : unit = ()\n\
     input step : int = 1\n\
     main =\n\
     let presses = \\button:signal unit. foldp (\\press:unit.\\count:int. count + 1) 0 button in\n\
     let stride = lift1 (\\n:int. if n > 100 then 100 else if n < 1 then 1 else n) step in\n\
     let moves = lift2 (\\up:int.\\down:int. up - down) (presses plus) (presses minus) in\n\
     let counter = lift2 (\\n:int.\\by:int. n * by) moves stride in\n\
     let saved = async counter in\n\
     lift2 (\\now:int.\\kept:int. now - kept) counter saved\n\
     ",
    "plus\nplus\nstep 5\nminus\nplus\nstep 0\nminus\nstep 250\nminus\nminus",
);

const CROSSING: Example = (
    "\
     input tick : unit = ()\n\
     input night : int = 0\n\
     main =\n\
     let phase = foldp (\\t:unit.\\p:int. (p + 1) % 8) 0 tick in\n\
     let light = \\ahead:int.\n\
     lift1 (\\p:int. let at = (p + ahead) % 8 in if at < 3 then 1 else if at == 3 then 2 else 0) phase\n\
     in\n\
     lift3 (\\a:int.\\b:int.\\n:int. if n then 22 else 10 * a + b) (light 0) (light 4) night\n\
     ",
    "tick\ntick\ntick\ntick\ntick\nnight 1\ntick\ntick\nnight 0\ntick\ntick",
);

const ECHO: Example = (
    "\
     input x : int = 0\n\
     main = x\n\
     ",
    "x 5\nx 5",
);

const INVENTORY: Example = (
    "\
     input sold : int = 0\n\
     input delivered : int = 0\n\
     main =\n\
     let total = \\pieces:signal int. foldp (\\n:int.\\sum:int. sum + n) 0 pieces in\n\
     let gone = total sold in\n\
     let orders = foldp (\\out:int.\\sum:int. if 40 + sum - out < 20 then out + 10 else sum) 0 gone in\n\
     let heard = async orders in\n\
     lift2 (\\asked:int.\\came:int. asked - came) heard (total delivered)\n\
     ",
    "sold 12\nsold 8\nsold 1\ndelivered 20\nsold 5\ndelivered 11\nsold 26\nsold 3\ndelivered 30",
);

const PIPELINE: Example = (
    "\
     input order : int = 0\n\
     main =\n\
     let count = \\s:signal int. foldp (\\n:int.\\so_far:int. so_far + 1) 0 s in\n\
     let checked = async (lift1 (\\n:int. if n < 1 then 1 else if n > 100 then 100 else n) order) in\n\
     let priced = async (lift1 (\\n:int. 12 * n + (if n < 10 then 5 else 0)) checked) in\n\
     let booked = async (foldp (\\amount:int.\\sum:int. sum + amount) 0 priced) in\n\
     lift2 (\\taken:int.\\done:int. taken - done) (count order) (count booked)\n\
     ",
    "order 3\norder 10\norder 0\norder 250\norder 9\norder 100\norder 1\norder 42",
);

const PLAYER: Example = (
    "\
     input button : int = 0\n\
     main =\n\
     let play_or_pause = \\state:int. if state == 1 then 2 else 1 in\n\
     let stop = \\state:int. 0 in\n\
     let stay = \\state:int. state in\n\
     let steps = lift1 (\\b:int. if b == 1 then play_or_pause else if b == 2 then stop else stay) button in\n\
     foldp (\\step:int->int.\\state:int. step state) 0 steps\n\
     ",
    "button 1\nbutton 1\nbutton 1\nbutton 7\nbutton 2\nbutton 2\nbutton 1\nbutton 2",
);

const SEARCH: Example = (
    "\
     input key : int = 0\n\
     input tick : unit = ()\n\
     main =\n\
     let text = foldp (\\digit:int.\\before:int. if digit < 0 then 0 else 10 * before + digit) 0 key in\n\
     let strokes = foldp (\\digit:int.\\n:int. n + 1) 0 key in\n\
     let ticks = foldp (\\t:unit.\\n:int. n + 1) 0 tick in\n\
     let now = lift2 (\\s:int.\\t:int.\\part:int. if part == 0 then s else t) strokes ticks in\n\
     let last =\n\
     foldp (\\new:int->int.\\old:int->int. if new 0 == old 0 then old else new) (\\part:int. 0) now\n\
     in\n\
     let pause = lift2 (\\new:int->int.\\old:int->int. new 1 - old 1) now last in\n\
     let question = lift2 (\\t:int.\\p:int. if p < 2 then 0 else t) text pause in\n\
     let asked = async question in\n\
     let price = lift1 (\\n:int. if n == 4 then 250 else if n == 42 then 1999 else if n == 421 then 80 else -1) asked in\n\
     lift3 (\\t:int.\\a:int.\\p:int. if t == a then p else -1) text asked price\n\
     ",
    "key 4\ntick\nkey 2\ntick\ntick\nkey 1\ntick\ntick\nkey -1\ntick",
);

const SENSORS: Example = (
    "\
     input north : int = 20\n\
     input east : int = 20\n\
     input south : int = 20\n\
     input west : int = 20\n\
     input roof : int = 20\n\
     input soil : int = 15\n\
     main =\n\
     let larger = \\a:int.\\b:int. if a < b then b else a in\n\
     let warmest =\n\
     lift6\n\
     (\\a:int.\\b:int.\\c:int.\\d:int.\\e:int.\\f:int. larger (larger (larger a b) (larger c d)) (larger e f))\n\
     north east south west roof soil\n\
     in\n\
     let alarm = foldp (\\degrees:int.\\on:int. degrees >= (if on then 70 else 80)) 0 warmest in\n\
     lift2 (\\degrees:int.\\on:int. if on then degrees else 0) warmest alarm\n\
     ",
    "roof 75\nroof 80\nsouth 91\nsouth 74\nroof 72\nsouth 69\nroof 50\nsouth 75\nnorth -5\nsoil 120",
);

const SMOOTHING: Example = (
    "\
     input reading : int = 0\n\
     main =\n\
     let smooth = \\s:signal int. foldp (\\new:int.\\old:int. old + (new - old) // 4) 0 s in\n\
     smooth (smooth (lift1 (\\n:int. 1000 * n) reading))\n\
     ",
    "reading 100\nreading 104\nreading 96\nreading 100\nreading 101\nreading 99\nreading 100\nreading 0\nreading 2\nreading -2",
);

const VALIDATION: Example = (
    "\
     input age : int = 0\n\
     input pin : int = 0\n\
     input again : int = 0\n\
     input send : unit = ()\n\
     main =\n\
     let of_age = lift1 (\\years:int. 18 <= years && years <= 120) age in\n\
     let four_digits = lift1 (\\n:int. 1000 <= n && n <= 9999) pin in\n\
     let repeated = lift2 (\\first:int.\\second:int. first == second) pin again in\n\
     let wrong =\n\
     lift3\n\
     (\\a:int.\\p:int.\\r:int. if a == 0 then 1 else if p == 0 then 2 else if r == 0 then 3 else 0)\n\
     of_age four_digits repeated\n\
     in\n\
     let tried = foldp (\\press:unit.\\before:int. 1) 0 send in\n\
     lift2 (\\field:int.\\shown:int. if shown then field else 0) wrong tried\n\
     ",
    "age 17\nsend\npin 1234\nage 18\nsend\nagain 1243\nagain 1234\npin 12345\nagain 12345\npin 4321\nagain 4321\nsend",
);

const WINDOW: Example = (
    "\
     input reading : int = 0\n\
     main =\n\
     let window =\n\
     foldp\n\
     (\\new:int.\\old:int->int.\n\
     let before = old 0 in\n\
     let earlier = old 1 in\n\
     \\ago:int. if ago == 0 then new else if ago == 1 then before else earlier)\n\
     (\\ago:int. 0)\n\
     reading\n\
     in\n\
     let smaller = \\a:int.\\b:int. if a < b then a else b in\n\
     let larger = \\a:int.\\b:int. if a < b then b else a in\n\
     let median = \\a:int.\\b:int.\\c:int. larger (smaller a b) (smaller (larger a b) c) in\n\
     lift1 (\\w:int->int. median (w 0) (w 1) (w 2)) window\n\
     ",
    "reading 10\nreading 11\nreading 500\nreading 12\nreading 11\nreading -400\nreading 13\nreading 13\nreading 14",
);
