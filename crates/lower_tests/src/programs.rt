//! Programs of C, and what they give when gcc has made them.

use crate::answers::{answer, file_of, told};
use std::alloc::{AllocError, Global};
use std::test::Fail;

// Units, each with what `main` returned and what the globals held at the end, as words of their sizes with a
// sign. An empty line stands between two. They were compiled by gcc 12 for x86-64, where `char` is signed, as
// `gcc -std=c99 -fwrapv -fno-strict-aliasing -O0 -Dmain=unit_main` beside a `main` that prints these.
static PROGRAMS: &str = r#"int low; unsigned high; int product;
int main(void) {
    int a = 2147483647; unsigned u = 0xfffffff0;
    low = a + 1; high = u + 32; product = a * 3;
    return -a - 2;
}
=> returned 2147483647;global "low" -2147483648;global "high" 16;global "product" 2147483645;

int q1; int q2; int q3; int q4; int r1; int r2; int r3; int r4;
int main(void) {
    q1 = 7 / 2; q2 = -7 / 2; q3 = 7 / -2; q4 = -7 / -2;
    r1 = 7 % 2; r2 = -7 % 2; r3 = 7 % -2; r4 = -7 % -2;
    return -2147483647 / 10 * 10 + -2147483647 % 10;
}
=> returned -2147483647;global "q1" 3;global "q2" -3;global "q3" -3;global "q4" 3;global "r1" 1;global "r2" -1;global "r3" 1;global "r4" -1;

unsigned q1; unsigned q2; unsigned r1; unsigned r2;
int main(void) {
    unsigned u = 0xfffffff9;
    int i = -7;
    q1 = u / 2; r1 = u % 10; q2 = i / 2u; r2 = i % 10u;
    return u / 3 == (unsigned)i / 3;
}
=> returned 1;global "q1" 2147483644;global "q2" 2147483644;global "r1" 9;global "r2" 9;

int a; int b; unsigned c; unsigned d; int e; int f;
int main(void) {
    int i = -100; unsigned u = 0xf0000001; short s = -3; unsigned char k = 129;
    a = i >> 3; b = 5 << 4; c = u >> 4; d = u << 4; e = s >> 1; f = k << 24;
    return (i >> 31) + (1 << 30 >> 29) + (k >> 7);
}
=> returned 2;global "a" -13;global "b" 80;global "c" 251658240;global "d" 16;global "e" -2;global "f" -2130706432;

char c1; char c2; short s1; short s2; unsigned char b1; unsigned char b2; unsigned short h1; unsigned short h2;
int main(void) {
    int i = 305419896; unsigned u = 4294967295u;
    c1 = i; c2 = 200; s1 = i; s2 = 40000; b1 = i; b2 = -1; h1 = i >> 4; h2 = u;
    return c1 + c2 + s1 + s2 + b1 + b2 + h1 + h2;
}
=> returned 80341;global "c1" 120;global "c2" -56;global "s1" 22136;global "s2" -25536;global "b1" 120;global "b2" -1;global "h1" 17767;global "h2" -1;

int a; int b; int c; int d; unsigned e; int f;
int main(void) {
    int i = -129; unsigned u = 65537;
    a = (char)i; b = (unsigned char)i; c = (short)(u * 40000); d = (unsigned short)(i * 1000);
    e = (char)128; f = (int)(unsigned)i / 2;
    return (signed char)(unsigned short)i + (unsigned char)(short)300;
}
=> returned 171;global "a" 127;global "b" 127;global "c" -25536;global "d" 2072;global "e" -128;global "f" -64;

int less; int same;
int main(void) {
    int i = -1; unsigned u = 1; char c = -1; unsigned char b = 255; short s = -1; unsigned short h = 65535;
    less = (i < u) + (c < u) * 2 + (i < 1) * 4 + (c < b) * 8 + (s < h) * 16 + (b < u) * 32 + (s < u) * 64;
    same = (c == b) + (s == h) * 2 + (i == 4294967295u) * 4 + (c == -1) * 8 + (h == 0xffff) * 16 + (u == 1) * 32;
    return (i > u) + (i >= u) + (i <= u) + (i != u);
}
=> returned 3;global "less" 28;global "same" 60;

char c = 127; unsigned char b = 0; short s = -32768; unsigned short h = 65535; unsigned u;
int main(void) {
    c++; b--; s--; h++; --u; c += 2; b -= 2; s *= 3; h += 70000; u -= 2;
    return c * b + s / 7 + h % 11;
}
=> returned -27189;global "c" -126;global "b" -3;global "s" 32765;global "h" 4464;global "u" -3;

int main(void) {
    int a = 1071; int b = 462;
    while (b != 0) { int t = a % b; a = b; b = t; }
    return a;
}
=> returned 21;

unsigned steps; unsigned most;
int main(void) {
    unsigned n = 27;
    while (n != 1) {
        if (n > most) most = n;
        if (n % 2) n = 3 * n + 1; else n /= 2;
        steps++;
    }
    return steps;
}
=> returned 111;global "steps" 111;global "most" 9232;

int a[8] = {5, -3, 9, 0, 2147483647, -2147483647, 9, 1}; int swaps;
int main(void) {
    int i; int j;
    for (i = 0; i < 8; i++)
        for (j = 0; j + 1 < 8 - i; j++)
            if (a[j] > a[j + 1]) { int t = a[j]; a[j] = a[j + 1]; a[j + 1] = t; swaps++; }
    return a[0] / 3 + a[1] + a[4] * a[5];
}
=> returned -715827840;global "swaps" 13;

short a[10] = {-40, -7, 0, 3, 8, 8, 21, 100, 500, 32000};
int find(int x) {
    int low = 0; int high = 9;
    while (low <= high) {
        int middle = (low + high) / 2;
        if (a[middle] == x) return middle;
        if (a[middle] < x) low = middle + 1; else high = middle - 1;
    }
    return -1;
}
int main(void) {
    int s = 0; int k;
    for (int i = -50; i < 600; i += 3) { k = find(i); s = s * 3 + k; }
    k = find(32000);
    return s ^ k;
}
=> returned -1736367362;

unsigned char data[9] = {'1', '2', '3', '4', '5', '6', '7', '8', '9'}; unsigned sum;
int main(void) {
    unsigned crc = 0xffffffff;
    for (int i = 0; i < 9; i++) {
        crc ^= data[i];
        for (int k = 0; k < 8; k++) if (crc & 1) crc = crc >> 1 ^ 0xedb88320; else crc >>= 1;
    }
    sum = ~crc;
    return sum >> 16;
}
=> returned 52212;global "sum" -873187034;

char text[6] = {'h', 'e', 'l', 'l', 'o'}; unsigned short last;
unsigned short crc16(char *p) {
    unsigned short crc = 0xffff;
    while (*p) {
        crc ^= *p << 8;
        for (int k = 0; k < 8; k++) if (crc & 0x8000) crc = crc << 1 ^ 0x1021; else crc <<= 1;
        p++;
    }
    return crc;
}
int main(void) { last = crc16(text); return last; }
=> returned 53870;global "last" -11666;

unsigned hash;
int main(void) {
    char key[5] = {'s', 'w', 'e', 'e', 't'};
    hash = 2166136261u;
    for (int i = 0; i < 5; i++) { hash ^= (unsigned char)key[i]; hash *= 16777619u; }
    return hash % 1000;
}
=> returned 751;global "hash" 1434728751;

int a[6] = {1, 2, 3, 4, 5, 6}; int b[6] = {7, -8, 9, 10, -11, 12}; int c[4]; int trace;
int main(void) {
    for (int i = 0; i < 2; i++)
        for (int j = 0; j < 2; j++) {
            int s = 0;
            for (int k = 0; k < 3; k++) s += a[i * 3 + k] * b[k * 2 + j];
            c[i * 2 + j] = s;
        }
    trace = c[0] + c[3];
    return c[1] * 1000 + c[2];
}
=> returned 48007;global "trace" 82;

int a[5] = {3, 1, 4, 1, 5};
int main(void) {
    int *p; int *end = a + 5; int s = 0;
    for (p = a; p != end; p++) s = s * 10 + *p;
    for (p = end - 1; p >= a + 1; p--) s -= p[-1] * (p - a);
    return s;
}
=> returned 31394;

int d1; int d2; int d3; int cmp;
int main(void) {
    int a[9]; short t[9]; char c[9]; int *p = &a[7]; short *q = t + 2; char *r = &c[5];
    d1 = p - a; d2 = t - q; d3 = r - c - 9;
    cmp = (p > a) + (q <= t) * 2 + (&a[2] == a + 2) * 4 + (r != c + 5) * 8 + (2 + t >= q) * 16;
    p -= 3; q += d3; r = 1 + c;
    return (p - a) * 100 + (q - t) * 10 + (r - c);
}
=> returned 381;global "d1" 7;global "d2" -2;global "d3" -4;global "cmp" 21;

unsigned w = 0x12345678; int negative = -2; int both; int swapped;
int main(void) {
    unsigned char *p = (unsigned char *)&w; char *c = (char *)&negative; short *s = (short *)&w;
    both = s[0] * 2 + s[1]; swapped = (p[0] << 24) + (p[1] << 16) + (p[2] << 8) + p[3];
    s[1] = -1; c[3] = 0;
    return p[3] * 256 + c[0];
}
=> returned 65278;global "w" -43400;global "negative" 16777214;global "both" 48932;global "swapped" 2018915346;

int x = 3; int y = 10; int z[2] = {7, -7};
void swap(int *a, int *b) { int t = *a; *a = *b; *b = t; }
int main(void) {
    swap(&x, &y); swap(z, z + 1); swap(&x, &z[1]); swap(&y, &y);
    return x * 100 + y * 10 + z[0];
}
=> returned 723;global "x" 7;global "y" 3;

int seen;
int weight(int day) {
    int w = 0;
    switch (day) {
        case 0: case 6: w = 100; break;
        case 5: w = 10;
        case 4: w += 5;
        default: w += 1; break;
        case -1: return -1;
        case 3: seen++;
    }
    return w;
}
int main(void) {
    int s = 0; int w;
    for (int d = -2; d < 9; d++) { w = weight(d); s = s * 2 + w; }
    return s;
}
=> returned 26931;global "seen" 1;

int log; int count;
int main(void) {
    unsigned char state = 0; int i = 0;
    while (1) {
        i++;
        switch (state) {
            case 0: if (i % 3 == 0) state = 1; continue;
            case 1: log = log * 7 + i; if (i > 20) state = 2; else state = 0; break;
            case 2: switch (i & 1) { case 0: state = 3; break; default: log++; } break;
            default: return log + state;
        }
        count++;
    }
}
=> returned 617657;global "log" 617654;global "count" 9;

int total;
int main(void) {
    int i = 0; int s = 0;
    do {
        i++;
        if (i == 3) continue;
        if (i > 8) break;
        int k = 0;
        do { k += 2; if (k == 4) continue; s += k; } while (k < i);
        total += s;
    } while (i < 100);
    return s * 1000 + i;
}
=> returned 54009;global "total" 140;

int calls; int last;
int clamp(int x, int low, int high) { calls++; if (x < low) return low; if (x > high) return high; return x; }
int main(void) {
    int error = 0; int sum = 0; int out = 0; int level = 0;
    for (int t = 0; t < 50; t++) {
        error = 1000 - level; sum = sum + error; sum = clamp(sum, -4000, 4000);
        out = error * 3 / 4 + sum / 8; out = clamp(out, -300, 300);
        level += out - level / 16;
    }
    last = out;
    return level;
}
=> returned 999;global "calls" 100;global "last" 62;

unsigned state = 0xace1;
int main(void) {
    unsigned period = 0;
    do { unsigned bit = state ^ state >> 2 ^ state >> 3 ^ state >> 5; state = state >> 1 | (bit & 1) << 15; period++; } while (period < 1000 && state != 0xace1);
    return period + state;
}
=> returned 32929;global "state" 31929;

int ones; unsigned reversed;
int main(void) {
    unsigned x = 0xdeadbeef; unsigned y = x;
    while (y) { y &= y - 1; ones++; }
    for (int i = 0; i < 32; i++) reversed |= (x >> i & 1u) << (31 - i);
    return reversed / 65536;
}
=> returned 63357;global "ones" 24;global "reversed" -142756485;

unsigned root(unsigned x) {
    unsigned r = 0; unsigned bit = 1u << 30;
    while (bit > x) bit >>= 2;
    while (bit) {
        if (x >= r + bit) { x -= r + bit; r = (r >> 1) + bit; } else r >>= 1;
        bit >>= 2;
    }
    return r;
}
unsigned big;
int main(void) { big = root(4294967295u); unsigned a = root(2147483648u); unsigned b = root(99); return a - b; }
=> returned 46331;global "big" 65535;

unsigned char ring[4]; unsigned char head; unsigned char tail = 254; int lost;
int main(void) {
    tail = 0;
    for (int i = 0; i < 300; i++) {
        if ((unsigned char)(head - tail) == 4) { lost++; tail++; }
        ring[head % 4] = i * 7; head++;
        if (i % 5 == 0) tail++;
    }
    int s = 0;
    while (tail != head) { s = s * 31 + ring[tail & 3]; tail++; }
    return s;
}
=> returned 745998;global "head" 44;global "tail" 44;global "lost" 236;

int taps[4] = {1, 3, -3, 2}; short line[4]; short least; short most;
int filter(short x) {
    int y = 0;
    for (int k = 3; k > 0; k--) line[k] = line[k - 1];
    line[0] = x;
    for (int k = 0; k < 4; k++) y += taps[k] * line[k];
    return y >> 2;
}
int main(void) {
    int s = 0; short x = 1; int y;
    for (int i = 0; i < 40; i++) { y = filter(x); if (y < least) least = y; if (y > most) most = y; s += y; x = x * 5 + 12345; }
    return s;
}
=> returned 131086;global "least" -12678;global "most" 27791;

int x = 1;
int f(int x) { { int x = 2; x += 10; { int x = 3; x++; } x++; if (x == 13) { int x = 9; return x; } } return x; }
int main(void) { int y = f(5); { int x = 7; y = y * 10 + x; } x += y; for (int x = 0; x < 3; x++) y += x; return y * 10 + x; }
=> returned 1098;global "x" 98;

int guards; int zero;
int main(void) {
    int n[5] = {0, 1, -1, 5, 100}; int s = 0;
    for (int i = 0; i < 5; i++) {
        if (n[i] != 0 && 10 / n[i] > 1) s += 1;
        if (n[i] == 0 || 10 % n[i] == 0) s += 10;
        if (!(i > 0 && n[i - 1] < n[i]) || !zero && i == 4) s += 100;
        if ((n[i] || i) && !(n[i] && i > 2)) guards++;
    }
    return s;
}
=> returned 342;global "guards" 2;global "zero" 0;

char main(void) { unsigned char b = 250; for (int i = 0; i < 10; i++) b++; return b * 50; }
=> returned -56;

unsigned short main(void) { short s = 32767; s++; int x = s; return x - 1; }
=> returned 32767;

unsigned main(void) { int i = -5; unsigned u = 3; return i / 2 + u - i % 2 * u; }
=> returned 4;

short out[3];
short narrow(char a, unsigned char b, short c, unsigned short d) { return a * 1000 + b * 100 + c + d; }
int main(void) {
    out[0] = narrow(200, 200, 40000, 40000); out[1] = narrow(-1, -1, -1, -1); out[2] = narrow(1000, 1000, 100000, 100000);
    int s = 0;
    for (int i = 0; i < 3; i++) s = s * 5 + out[i];
    return s;
}
=> returned -413318;

int digits; int mirror;
int main(void) {
    int n = 1234567890; int s = 0;
    while (n > 0) { s += n % 10; if (digits < 9) mirror = mirror * 10 + n % 10; n /= 10; digits++; }
    return s;
}
=> returned 45;global "digits" 10;global "mirror" 98765432;

unsigned a = 1; unsigned b;
void add(unsigned char *p, int n) { for (int i = 0; i < n; i++) { a = (a + p[i]) % 65521; b = (b + a) % 65521; } }
int main(void) { unsigned char t[9] = {'W', 'i', 'k', 'i', 'p', 'e', 'd', 'i', 'a'}; add(t, 9); return b << 16 | a; }
=> returned 300286872;global "a" 920;global "b" 4582;

int main(void) {
    int a = 6; int b = 3; int c = -2;
    return (a + b * c - a / b % 2 << 1 & ~c | a ^ b) + (a < b == c < b) * 1000 + (!a + -!b - ~-c) * 10 + (a & b == 3) * 10000;
}
=> returned 35;

int a[7]; int worst;
int main(void) {
    int seed = 12345;
    for (int i = 0; i < 7; i++) { seed = seed * 1103515245 + 12345; a[i] = seed >> 16 & 32767; }
    for (int i = 1; i < 7; i++) {
        int key = a[i]; int j = i - 1;
        while (j >= 0 && a[j] > key) { a[j + 1] = a[j]; j--; worst++; }
        a[j + 1] = key;
    }
    int s = 0;
    for (int i = 0; i < 7; i++) s = s * 2 + a[i];
    return s;
}
=> returned 1079641;global "worst" 11;

unsigned long_sum; int rounds;
int main(void) {
    for (int i = 0; i < 12; i++)
        for (int j = i; j > 0; j -= 2) {
            for (unsigned k = 1; ; k *= 3) { if (k > 50) break; if (k % (j + 1) == 1) continue; long_sum += k * i + j; }
            rounds++;
        }
    return long_sum - rounds;
}
=> returned 9000;global "long_sum" 9036;global "rounds" 36;

int parts;
void split(int x, short *high, unsigned short *low) { *high = x >> 16; *low = x; }
int main(void) {
    short h; unsigned short l; int t[2];
    split(-123456789, &h, &l); parts = h * 65536 + l;
    split(65535, (short *)t, (unsigned short *)(t + 1));
    t[0] = *(short *)t;
    return (h + l) * 2 + t[0] + *(unsigned short *)&t[1];
}
=> returned 87837;global "parts" -123456789;

unsigned char image[16] = {0, 0, 1, 1, 0, 1, 1, 0, 0, 0, 0, 1, 1, 1, 0, 0}; char label[16]; char regions;
int main(void) {
    for (int i = 0; i < 16; i++) {
        if (!image[i]) continue;
        char up = 0; char left = 0;
        if (i >= 4) up = label[i - 4];
        if (i % 4) left = label[i - 1];
        if (up == 0 && left == 0) { regions++; label[i] = regions; }
        else if (up == 0) label[i] = left;
        else {
            label[i] = up;
            if (left && left != up) for (int k = 0; k <= i; k++) if (label[k] == left) label[k] = up;
        }
    }
    int s = 0;
    for (int i = 0; i < 16; i++) s = s * 3 + label[i];
    return s;
}
=> returned 2204883;global "regions" 4;

int hours; int minutes; int seconds = 3599;
void tick(void) { seconds++; if (seconds < 3600) return; seconds = 0; minutes += 60; if (minutes >= 1440) { minutes = 0; hours += 24; } }
int main(void) { for (unsigned i = 0; i < 7200; i += 1) tick(); return hours * 10000 + minutes * 10 + seconds; }
=> returned 4799;global "hours" 0;global "minutes" 120;global "seconds" 3599;

unsigned key = 0xdeadbeef; unsigned v0 = 0x01234567; unsigned v1 = 0x89abcdef;
int main(void) {
    unsigned sum = 0; unsigned k[4];
    for (int i = 0; i < 4; i++) k[i] = key * (i + 1) ^ key >> i;
    for (int i = 0; i < 32; i++) {
        sum += 0x9e3779b9;
        v0 += (v1 << 4) + k[0] ^ v1 + sum ^ (v1 >> 5) + k[1];
        v1 += (v0 << 4) + k[2] ^ v0 + sum ^ (v0 >> 5) + k[3];
    }
    return v0 ^ v1;
}
=> returned 258575382;global "key" -559038737;global "v0" -1779959727;global "v1" -1701940153;"#;

#[test]
fn programs_give_what_gcc_gives(rt: HostRuntime) -> Result<(), Fail> {
    let alloc = rt.alloc();
    for row in PROGRAMS.split("\n\n") {
        let (unit, due) = row.split_once("\n=> ").unwrap_or(("", ""));
        let found = told(alloc, "run a.c", file_of(alloc, "a.c", unit.as_bytes())?)?;
        let wanted = format!(in alloc; "0 {due}turns ")?;
        assert!(rt;
            found.as_str().starts_with(wanted.as_str()),
            "{found} {unit}"
        );
    }
    Ok(())
}

// The text that a unit is lowered to.
fn lowered_text(alloc: Global, unit: &str) -> Result<String, AllocError> {
    let told = answer(alloc, "lower a.c", file_of(alloc, "a.c", unit.as_bytes())?)?;
    String::from_str(alloc, told.as_str().strip_prefix("0 ").unwrap_or(""))
}

#[test]
fn a_lowered_text_is_canonical_and_runs_as_its_unit(rt: HostRuntime) -> Result<(), Fail> {
    let alloc = rt.alloc();
    for row in PROGRAMS.split("\n\n") {
        let (unit, _) = row.split_once("\n=> ").unwrap_or(("", ""));
        let text = lowered_text(alloc, unit)?;
        let printed = answer(
            alloc,
            "print a.alf",
            file_of(alloc, "a.alf", text.as_bytes())?,
        )?;
        assert_eq!(rt;
            printed.as_str().strip_prefix("0 "),
            Some(text.as_str()),
            "{unit}"
        );
        let found = answer(
            alloc,
            "run a.alf",
            file_of(alloc, "a.alf", text.as_bytes())?,
        )?;
        let wanted = answer(alloc, "run a.c", file_of(alloc, "a.c", unit.as_bytes())?)?;
        assert_eq!(rt; found.as_str(), wanted.as_str(), "{unit}");
    }
    Ok(())
}

#[test]
fn without_inputs_both_bounds_are_the_cost_of_the_run(rt: HostRuntime) -> Result<(), Fail> {
    let alloc = rt.alloc();
    for row in PROGRAMS.split("\n\n") {
        let (unit, _) = row.split_once("\n=> ").unwrap_or(("", ""));
        let run = told(alloc, "run a.c", file_of(alloc, "a.c", unit.as_bytes())?)?;
        let cost = run.as_str().split("cost ").last().unwrap_or("");
        let cost = cost.strip_suffix(';').unwrap_or("");
        let wanted = format!(in alloc; "count-bound {cost};path-bound {cost} least;end;")?;
        let report = told(
            alloc,
            "analyse a.c",
            file_of(alloc, "a.c", unit.as_bytes())?,
        )?;
        assert!(rt;
            report.as_str().ends_with(wanted.as_str()),
            "{report} {unit}"
        );
    }
    Ok(())
}
