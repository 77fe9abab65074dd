//! Whole calls of table, over files in memory.

use crate::tests::program::goes;

// Tables of the two patients, of whom one has an id with a comma, quotes and a line feed.
const TABLES: &str = r#"
> lay two admitted
> change i two
"p0"
"p,\"0\"\n"
> change s admitted
"p0"
"p,\"0\"\n"
> # whoever isn't admitted has no day, place or delay
> 0 table i s o
> has o
patient,admitted,day,date,room,theatre,surgeon,minutes,leaves,delay,mandatory
"p,""0""
",yes,0,,r0,t0,s0,60,5,0,yes
p1,no,,,,,s0,40,,,no
> # a nurse without a room has a row for each working shift
> 0 table i s o --of nurses
> has o
nurse,day,date,shift,rooms,load,max_load
n0,0,,early,r0,3,3
n0,0,,late,r0,3,3
n0,0,,night,r0,3,3
n0,1,,early,r0,2,3
n0,1,,late,r0,2,3
n0,1,,night,r0,2,3
n1,0,,early,,0,10
n1,0,,late,,0,10
n1,0,,night,,0,10
n1,1,,early,,0,10
n1,1,,late,,0,10
n1,1,,night,,0,10
> # patients come before occupants; a leap year has this day
> 0 table i s o --of rooms --from 2028-02-28
> has o
room,day,date,persons,count,capacity
r0,0,2028-02-28,"p,""0""
;a0",2,2
r0,1,2028-02-29,"p,""0""
",1,2
r1,0,2028-02-28,,0,1
r1,1,2028-02-29,,0,1
> 0 table i s o --of theatres --from 2026-12-31
> has o
theatre,day,date,patient,surgeon,minutes
t0,0,2026-12-31,"p,""0""
",s0,60
> # the calendar's last day has no day after it
> 0 table i s o --of rooms --from 9999-12-31
> shows o
r1,0,9999-12-31,,0,1
r1,1,,,0,1
> # theatres come first, then days, whatever the patients' numbers; delays are counted from the release on
> lay two admitted
> change s admitted
"room":"r0","operating_theater":"t0"
"room":"r0","operating_theater":"t1"
> change s s
"admission_day":"none"
"admission_day":1,"room":"r1","operating_theater":"t0"
> 0 table i s o --of theatres
> has o
theatre,day,date,patient,surgeon,minutes
t0,1,,p1,s0,40
t1,0,,p0,s0,60
> 0 table i s o --from 2026-12-31 --of patients
> has o
patient,admitted,day,date,room,theatre,surgeon,minutes,leaves,delay,mandatory
p0,yes,0,2026-12-31,r0,t1,s0,60,5,0,yes
p1,yes,1,2027-01-01,r1,t0,s0,40,2,1,no
> # two rooms stand in number order; a nurse who is off has them all the same, and no maximum
> lay two admitted
> change i two
[{"day":0,"shift":"early","max_load":3},
[
> change s admitted
"shift":"early","rooms":["r0"]
"shift":"early","rooms":["r1","r0"]
> 0 table i s o --of nurses
> shows o
n0,0,,early,r0;r1,3,
n0,0,,late,r0,3,3
"#;

#[test]
fn what_tables_say(rt: HostRuntime) {
    goes(&rt, rt.alloc(), TABLES);
}

// A calendar of two surgeries in the order of the theatres. In a name a semicolon, a comma, a backslash and a line feed
// are escaped, and another control character is a space. What has no date isn't there. Each line ends in CR LF.
const CALENDARS: &str = "
> lay two admitted
> change i two
\"p0\"
\"p;,\\\\\\n\\u0001\u{e9}\"
> change s admitted
\"p0\",\"admission_day\":0,\"room\":\"r0\",\"operating_theater\":\"t0\"
\"p;,\\\\\\n\\u0001\u{e9}\",\"admission_day\":0,\"room\":\"r0\",\"operating_theater\":\"t1\"
> change s s
\"admission_day\":\"none\"
\"admission_day\":1,\"room\":\"r1\",\"operating_theater\":\"t0\"
> 0 table i s o --of calendar --from 2026-12-31
> has o
BEGIN:VCALENDAR\r
VERSION:2.0\r
PRODID:-//ih_planner//table//EN\r
BEGIN:VEVENT\r
UID:p1@ih_planner\r
DTSTAMP:20270101T000000Z\r
DTSTART;VALUE=DATE:20270101\r
SUMMARY:p1\\, s0\\, 40 minutes\r
LOCATION:t0\r
DESCRIPTION:Room r1\r
END:VEVENT\r
BEGIN:VEVENT\r
UID:p\\;\\,\\\\\\n \u{e9}@ih_planner\r
DTSTAMP:20261231T000000Z\r
DTSTART;VALUE=DATE:20261231\r
SUMMARY:p\\;\\,\\\\\\n \u{e9}\\, s0\\, 60 minutes\r
LOCATION:t1\r
DESCRIPTION:Room r0\r
END:VEVENT\r
END:VCALENDAR\r
> 0 table i s o --of calendar --from 9999-12-31
> shows o
PRODID:-//ih_planner//table//EN\r
BEGIN:VEVENT\r
UID:p\\;
> lines o 12
> says 1 table i s o --of calendar
error: '--of calendar' needs '--from'…'--help'.
";

#[test]
fn what_calendars_say(rt: HostRuntime) {
    goes(&rt, rt.alloc(), CALENDARS);
}

// No table is written where a file is missing or refused, or where words name no call, which is explained. Help is given
// to those who ask. A table whose write is to fail is cut off, which is said.
const NO_TABLES: &str = "
> lay two admitted
> 2 table k s o
cannot read k
> 2 table i k o
cannot read k
> each 1 error: …'--help'.
table i s
table i s i
table i s s
table i i o
table i s o p
table i s o --of
table i s o --of wards
table i s o --of Patients
table i s o --from 2026-02-30
table i s o --from today
> says 0 table --help
Writes a solution…
> store i
> 3 table i s o
i: instance refused: NotJson at $
  line 1, column 1: the file is empty
> lay two admitted
> store s
> 4 table i s o
s: solution refused: NotJson at $
  line 1, column 1: the file is empty
> no o
> lay two admitted
> fail-write 1 9
> 6 table i s o
cannot write o
> is o
patient,a
> 0 table i s o
> shows o
p1,no,
";

#[test]
fn calls_without_a_table(rt: HostRuntime) {
    goes(&rt, rt.alloc(), NO_TABLES);
}
